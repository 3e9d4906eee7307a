//! The rows of the gate as its files spell them: cases of runs, pages, statement files, and rows of a keeper; what a
//! run is given and what it wants; how what came is compared with that, and how a row that fails is said. A crate of
//! its own, since none of it needs the program that the gate runs.
#![tactic(auto)]

mod answers;
mod comparing;
mod counters;
mod failing_keeper;
mod files;
mod host;
mod lines;
mod page;
mod page_answers;
mod report;
mod rows;
mod run;
mod salaries;
mod script;
mod stream_rows;
mod unsteady;

pub use answers::{Answer, Wanted, WantedRow};
pub use comparing::{Case, Outcome, compare, compare_lines, compare_status};
pub use counters::{memory, number, unread};
pub use failing_keeper::{FailingKeeper, Numbered};
pub use files::check_files;
pub use host::Host;
pub use lines::{first_lines, without_line};
pub use page::{Page, page_of};
pub use page_answers::{check_line, check_pairs, check_tables, say_page};
pub use report::{Place, Report};
pub use rows::{are_same, copy_of, no_rows, put_all, rows_in, take_out};
pub use run::{Each, Fault, Run, Sort};
pub use salaries::keeper_of;
pub use script::{Line, Section, sections_of};
pub use stream_rows::{StreamRow, host_words, long_lines, stream_row};
pub use unsteady::{Reader, Unflushable, Unforgiving, Writer};
