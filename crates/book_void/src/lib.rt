//! Voiding a transaction, and bringing it back (GnuCash Manual, voiding a transaction). A voided transaction stays in
//! the book. The amounts of its splits are zero, so that it adds nothing to a balance; what they were is kept, and why
//! it was voided. `voided_for` makes it so. `restored` brings it back, with each split new.
#![tactic(auto)]

mod restoring;
mod rules;
mod voiding;

pub use restoring::restored;
pub use rules::{are_rightly_voided, keeps_as_many, passes_restored};
pub use voiding::voided_for;
