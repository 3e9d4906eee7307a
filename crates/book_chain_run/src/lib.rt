//! What holds of the reconciliations in all books of a machine: the past ones, the present one and the later ones. Here
//! stand definitions and proofs alone: a book that the program makes from nothing is chained after each run, undo and
//! redo included, and only an undo makes a broken record intact.
#![tactic(auto)]
