use crate::links::{ports_of, written};
use book_app::{Status, book_main};
use book_commodity::{Bytes, discard};
use book_keeper::{Keeper, MemKeeper, MemSink, MemSource, Source};
use gate_rows::{FailingKeeper, Fault, Outcome, Run, Sort, memory};
use std::alloc::{AllocError, Global};
use std::io;

/// How many bytes the answers of a run may have.
const ROOM: usize = 1 << 22;

/// The most reads that are made to count what is left of an input.
const MOST_READS: u64 = 1 << 24;

/// A status as a row names it.
fn status_text(alloc: Global, status: Status) -> Result<String, AllocError> {
    match status {
        Status::Done => String::from_str(alloc, "done"),
        Status::Usage => String::from_str(alloc, "usage"),
        Status::Memory => String::from_str(alloc, "memory"),
        Status::InputFault => String::from_str(alloc, "input fault"),
        Status::OutputFault => String::from_str(alloc, "output fault"),
        Status::KeeperFault => String::from_str(alloc, "keeper fault"),
        Status::PortFault => String::from_str(alloc, "port fault"),
        Status::InputLimit => String::from_str(alloc, "input limit"),
        Status::BadRows { kind, id } => format!(in alloc; "bad rows {kind} {id}"),
        Status::UnsoundBook { kind, id } => format!(in alloc; "unsound book {kind} {id}"),
    }
}

/// Makes a run over a keeper and this input. Beside the reads and writes that are to fail, one more call may fail. What
/// it wrote is what its closed links were given, where it has links.
pub(crate) fn made<K: Keeper>(
    alloc: Global,
    run: &Run,
    keeper: &mut K,
    input: &[u8],
    more: Option<Fault>,
) -> io::Result<Outcome> {
    let bytes = Bytes::of(input.to_vec(alloc)?);
    let reads = run.failing(alloc, Sort::Read, more)?;
    let mut source = MemSource::new(bytes, run.piece.max(1), reads);
    let writes = run.failing(alloc, Sort::Write, more)?;
    let Ok(mut output) = MemSink::new(alloc, ROOM, writes) else {
        return Err(memory());
    };
    let mut ports = ports_of(alloc, run, more)?;
    let words = run.words.as_slice();
    let status = book_main(alloc, words, keeper, &mut source, &mut output, &mut ports);
    let unread = left(&mut source);
    let output = written(alloc, output, &ports)?;
    match status_text(alloc, status) {
        Ok(status) => Ok(Outcome {
            status,
            output,
            unread,
        }),
        Err(error) => Err(discard(output, io::Error::from(error))),
    }
}

/// Makes a run over a keeper in memory; gives the keeper back.
pub(crate) fn made_in_memory(
    alloc: Global,
    run: &Run,
    keeper: MemKeeper,
    input: &[u8],
    more: Option<Fault>,
) -> io::Result<(Outcome, MemKeeper)> {
    let calls = run.failing(alloc, Sort::Call, more)?;
    let commits = run.failing(alloc, Sort::Commit, more)?;
    let mut keeper = FailingKeeper::new(keeper, calls, commits);
    let outcome = made(alloc, run, &mut keeper, input, more);
    let keeper = keeper.into_keeper();
    match outcome {
        Ok(outcome) => Ok((outcome, keeper)),
        Err(error) => Err(discard(keeper, error)),
    }
}

/// How many bytes are left in a source.
fn left(source: &mut MemSource) -> usize {
    let mut buffer = [0; 4096];
    let mut left: usize = 0;
    for _ in 0..MOST_READS {
        match source.read(&mut buffer) {
            Ok(0) => break,
            Ok(count) => left = left.saturating_add(count),
            Err(_) => {}
        }
    }
    left
}
