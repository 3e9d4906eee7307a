//! Matching the lines of a bank statement with splits (GnuCash Manual, import matcher; the rule by which a pair is
//! chosen is this project's own). `propose` tells for each line which split it takes: of the splits that no earlier
//! line took, with its amount and at most so many days away, the nearest one. `AmountIndex` keeps the splits that may
//! be matched by account and amount, each a `Free`, and `propose_kept` gives the same pairs through it.
#![tactic(auto)]

mod bounds;
mod free;
mod index;
mod kept;
mod nearest;
mod order;
mod proposal;
mod rank;
mod views;

pub use free::Free;
pub use index::{AmountIndex, sort};
pub use kept::propose_kept;
pub use proposal::propose;
pub use views::{LineView, Matched, SplitView};
