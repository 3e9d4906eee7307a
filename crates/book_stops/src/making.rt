use book_app::{Status, book_main};
use book_commodity::{Bytes, Many};
use book_keeper::{Keeper, MemSink, MemSource};
use book_ports::MemPorts;
use gate_rows::{Run, memory};
use std::alloc::Global;
use std::{io, str};

/// How many bytes the answers of a run may have.
const ROOM: usize = 1 << 20;

/// How many bytes of the lines a read gives at most.
const PIECE: usize = 4096;

/// What a run came to.
#[derive(Clone, Copy)]
pub(crate) struct Progress {
    /// How many lines were answered as done, or none where the run says that it lacked memory: memory is ample here,
    /// and a disk that failed has to be told as the keeper's failure.
    pub(crate) done: Option<usize>,
    /// Whether all lines were done, and the run ended as done.
    pub(crate) is_whole: bool,
}

/// The bytes of the lines.
fn input_of(alloc: Global, lines: &[&str]) -> io::Result<Bytes> {
    let mut input = Vec::new(alloc);
    for line in lines {
        input.extend_from_slice(line.as_bytes())?;
        input.push(b'\n')?;
    }
    Ok(Bytes::of(input))
}

/// An output with room for the answers.
fn output_of(alloc: Global) -> io::Result<MemSink> {
    match MemSink::new(alloc, ROOM, Many::new(alloc)) {
        Ok(output) => Ok(output),
        Err(_) => Err(memory()),
    }
}

/// Ports to which no link comes.
fn no_ports(alloc: Global) -> io::Result<MemPorts> {
    match MemPorts::new(alloc, Many::new(alloc), Many::new(alloc)) {
        Ok(ports) => Ok(ports),
        Err(_) => Err(memory()),
    }
}

/// Makes a run of the lines over the keeper, by the program's own call. The words are those of `Run::new`.
pub(crate) fn made<K: Keeper>(
    alloc: Global,
    keeper: &mut K,
    lines: &[&str],
) -> io::Result<Progress> {
    let run = Run::new(alloc, 1)?;
    let mut source = MemSource::new(input_of(alloc, lines)?, PIECE, Many::new(alloc));
    let mut output = output_of(alloc)?;
    let mut ports = no_ports(alloc)?;
    let words = run.words.as_slice();
    let status = book_main(alloc, words, keeper, &mut source, &mut output, &mut ports);
    Ok(made_of(status, output.written(), lines.len()))
}

/// What a run of so many lines came to, by its status and its answers.
fn made_of(status: Status, answers: &[u8], count: usize) -> Progress {
    let answers = str::from_utf8(answers).unwrap_or("");
    if status == Status::Memory || answers.contains("\"memory\"") {
        return Progress {
            done: None,
            is_whole: false,
        };
    }
    let is_done = |line: &&str| line.contains("\"ok\":");
    let done = answers.lines().filter(is_done).count();
    Progress {
        done: Some(done),
        is_whole: status == Status::Done && done == count,
    }
}
