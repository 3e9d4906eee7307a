//! Lines of JSON read as tables of members: a line is an object, each member is taken away by its name in the form
//! that it has, and none may be left at the end. The first member that fails is reported by its name. A reader is a
//! few lines of `needed`, `optional`, `text`, `flag`, `word` and `objects`, and its contract the same lines as a `do`
//! block. The forms are numbers, truths, texts, days, words of a table, objects inside and lists of them. Nothing
//! here knows any command.
#![tactic(auto)]

mod fault;
mod form;
mod inside;
mod object;
mod reading;
mod word;

pub use fault::Fault;
pub use form::{Filled, Form};
pub use inside::Object;
pub use object::{NotRead, object_of};
pub use reading::Reading;
pub use word::{named, word_of};
