//! The outside as the book meets it: a source of bytes, a sink of bytes, a keeper of rows, and what can go wrong with
//! them.
//! Each reports by ghost members what it has left, what it was given and how often it failed, so that
//! contracts above speak of the bytes themselves. `MemSource` and `MemSink` report all of it and fail at chosen
//! calls, and `MemKeeper` keeps rows in memory and fails at chosen commits; `FileSource`
//! and `StreamSink` join std's readers and writers, report the bytes that these report, and count a fault
//! for each call that fails. A call that succeeds leaves the count.
#![tactic(auto)]

mod calls;
mod file_source;
mod interrupted;
mod keeper;
mod mem_keeper;
mod mem_rows;
mod mem_sink;
mod mem_source;
mod row;
mod sink;
mod source;
mod stream_sink;
mod writing;

pub use file_source::FileSource;
pub use keeper::Keeper;
pub use mem_keeper::MemKeeper;
pub use mem_sink::MemSink;
pub use mem_source::MemSource;
pub use row::{Change, KeepError, Row, RowKey};
pub use sink::Sink;
pub use source::{Failed, Source};
pub use stream_sink::StreamSink;
pub use writing::write_all;
