//! Recurrences and the due days of schedules: the days on which something comes again, by days, weeks, months or
//! years, and which of them are still to be made (GnuCash Manual, scheduled transactions).
//! `occurrence` gives the day of one occurrence of a recurrence, and `due` the days of a schedule that are due.
#![tactic(auto)]

mod due_days;
mod month;
mod next_day;
mod occurrences;
mod recurrence;
mod timing;

pub use due_days::{DueError, due};
pub use occurrences::occurrence;
pub use recurrence::{Adjust, Recurrence, RecurrenceKind};
pub use timing::{End, Timing};
