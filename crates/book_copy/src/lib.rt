//! A copy of all rows of a keeper: `copy_rows` reads them one after another and puts them into another keeper by one
//! commit. The rows that are read stay, and the other keeper then has exactly them, or none of them. Public are this
//! call and `CopyError`, why no row was copied.
#![tactic(auto)]

mod copying;

pub use copying::{CopyError, copy_rows};
