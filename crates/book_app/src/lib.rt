//! The program's work as one call, generic over what keeps the book, where the lines come from and where the answers
//! go: `book_main` takes the words, opens the keeper, reads the input to its end, and says how it ended. Its clause
//! `run` is the whole promise of a run: what was written is what the machine of whole books answers to the lines that
//! were read, from the state as which the keeper's rows opened on, and the rows that the keeper then holds open as the
//! last state. With the words of `import` it is the machine's answer to the import of the whole input; with those of
//! `sample` the last two answers to the lines of `sample_lines`. With those of `serve` requests of links are answered
//! in place of lines, and the clause `serve` says of each link what `run` says of an input. `run_over` says the same
//! over any reader and writer of std. `run_program` does so over a program's standard streams, the words that
//! `words_of` reads, and the keeper that it is given. `Ended` is what the program's `main` answers.
#![tactic(auto)]

mod ended;
mod import_call;
mod importer;
mod main_call;
mod opening;
mod program;
mod reply;
mod respond;
mod sample;
mod serve_call;
mod status;
mod words;

/// The lines of the sample of a number.
pub use book_sample::sample_lines;
/// What `run_lines` keeps between two lines: the room for a begun line, of 8 MiB, and for the piece that is read at a
/// time. It is made once.
pub use book_lines::LineRoom;
/// The requests of one link answered by an engine, and how that ended.
pub use book_serve::{LinkEnd, serve_link};
pub use ended::{Ended, Ran, run_over};
pub use main_call::{book_main, run_lines};
pub use program::{run_program, words_of};
pub use reply::Answering;
pub use status::Status;
pub use words::{ImportWords, ServeWords, named_book, named_import, named_number, named_serve};
