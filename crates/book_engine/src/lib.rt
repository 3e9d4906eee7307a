//! The machine that keeps a whole book, and whose rows a keeper holds. Between two calls on an `Engine` this holds:
//!
//! 1. Its state is sound: so is the present book, and so is each book to which its steps lead back or forth.
//! 2. It keeps at most 256 steps in all, each as an edit under its number: those back lead from the present book to the
//!    earlier ones, those forth to the later ones.
//! 3. The registers are those of the present book, and the index has exactly the splits of it that are free to be
//!    matched with a bank line. Both follow each edit and are made once, as the book is opened.
//! 4. Where rows stood for the state before a call, they stand for the state after it, as far as the keeper knows them.
//!    What an honest keeper may leave opens as the engine's machine, or as the one that one command more makes of it:
//!    a command whose changes it failed to keep, as `leaves` of `act` says. The rows have format 2: those of format 1
//!    are written anew, as one commit, when the book is opened.
//!
//! A command takes two calls. `prepare` tries all rules, takes all memory and has the answer; it leaves the state, and
//! takes no room away, so that of two plans that were made in one state either can be finished. `finish` lets the
//! keeper make the changes of rows, and then makes the turn of the state, which takes no memory and can't fail. The
//! text of the answer is made between the two: what is out of memory by then has changed nothing, and no change is kept
//! whose answer could not be written for want of memory.
//!
//! A turn is what becomes of the state: it changes the book, and keeps the edit that leads back; or it goes one step
//! back or forth, for `undo` or `redo`, and keeps the edit that leads the other way. It has the head of the state to
//! which it leads: this is computed once; its row is committed, and then the state gets it. A command that asks
//! something, or leaves all as it is, makes no turn: for it no room is made, and the keeper is not asked.
//!
//! Contracts see an engine as its state with its steps, whether rows were given to a keeper, and the tables that hold
//! the book.
#![tactic(auto)]

mod engine;
mod fault;
mod migration;
mod opening;
mod plan;
mod planning;

pub use book_command::{
    Answer, Command, DueDay, GivenAccount, GivenSchedule, GivenSplit, GivenTxn, Refusal, Report,
    Rule, Update, What,
};
pub use engine::Engine;
pub use fault::OpenError;
pub use plan::Plan;
