//! Reads QIF files, the interchange format of Quicken, into bank statements. A file is a tree of lists under their
//! headers, of entries, of lines; `read_qif` gives exactly the statements of that tree, or else the first place in the
//! file at which a check fails. `DateOrder` says whether day or month stands first in its dates.
#![tactic(auto)]

mod amount;
mod date;
mod form;
mod keep;
mod kind;
mod kind_of;
mod line;
mod order;
mod read;
mod reader;
mod said;
mod section;
mod split;
mod splits;

use form::Form;
pub use order::DateOrder;
pub use read::read_qif;
