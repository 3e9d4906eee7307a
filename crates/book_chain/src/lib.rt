//! The reconciliations of an account form a chain: while their records are intact, the quantities of their lists sum to
//! the last closing balance. Here stand definitions and proofs alone: no command makes a broken record intact, and each
//! leads from a chained book to a chained one.
#![tactic(auto)]
