//! When a book of nine tables is sound: each thing keeps the rules of its kind, and so does the whole book. Here stand
//! definitions and proofs alone: what a change of one table leaves as it was. The soundness of `book_step` is this.
#![tactic(auto)]
