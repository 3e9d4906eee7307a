//! Tests alone: what no line, no file and no row reaches. Readers and writers that are interrupted, and a flush; words
//! that the program never hands on; pairs of drawn lines and splits; lines of the sample; keys of a statement's lines; and
//! rows of statements, lines, bindings and reconciliations. All else is compared by `book_gate`.
#![tactic(auto)]

#[cfg(test)]
mod file_source;
#[cfg(test)]
mod matching;
#[cfg(test)]
mod sample;
#[cfg(test)]
mod statement;
#[cfg(test)]
mod stream_sink;
#[cfg(test)]
mod words;
#[cfg(test)]
mod written;
