//! What an import of bank statements adds to a book: of the statements of a file, each with the account that it goes
//! to, those that are not in the book in all their fields, and of their lines those whose key is not in the book. Each
//! that is added draws the next number. Public are `Bound`, `Additions` and `import_statements`.
#![tactic(auto)]

mod added;
mod bound;
mod importing;
mod known_keys;

pub use added::Additions;
pub use bound::Bound;
pub use importing::import_statements;
