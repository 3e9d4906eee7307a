//! A table as a text: its rows in columns for a person, or as comma-separated values for a program. `table_text`
//! writes it from rows of texts, which `Cells` and `row_of` make. In columns each text stands at its side of the
//! widest one of its column, counted in places of a terminal; no line ends in the spaces of a column, and control
//! characters are shown as spaces. Public are these, `Side`, where the texts of a column stand, and `day_cell`, the
//! text of a day.
#![tactic(auto)]

mod cells;
mod columns;
mod layout;

pub use cells::{Cells, row_of};
pub use columns::{Side, table_text};
pub use layout::day_cell;
