//! The first lines of a book, over objects that never fail.
use crate::{NoFailKeeper, NoFailSink, NoFailSource, run_sure};
use book_app::Status;
use book_commodity::{Bytes, Many, OutOfMemory, Text};
use book_ports::MemPorts;
use std::alloc::Global;
use std::test::Fail;

/// Two accounts and a post between them; the last line has no line feed.
const LINES: &str = concat!(
    r#"{"do":"account_add","name":"Bank","kind":"BANK","commodity":1,"parent":2}"#,
    "\n",
    r#"{"do":"account_add","name":"Salary","kind":"INCOME","commodity":1,"parent":2}"#,
    "\n",
    r#"{"do":"post","day":"2024-01-05","currency":1,"description":"Pay","#,
    r#""splits":[{"account":3,"value":250000},{"account":4,"value":-250000}]}"#
);

const ANSWERS: &str = concat!(
    r#"{"account":3,"ok":"account_add","version":1}"#,
    "\n",
    r#"{"account":4,"ok":"account_add","version":2}"#,
    "\n",
    r#"{"balances":["250000","-250000"],"ok":"post","splits":[6,7],"transaction":5,"version":3}"#,
    "\n"
);

fn bytes_of(alloc: Global, text: &str) -> Result<Bytes, OutOfMemory> {
    let mut bytes = Vec::new(alloc);
    bytes.extend_from_slice(text.as_bytes())?;
    Ok(Bytes::of(bytes))
}

fn run_words(alloc: Global) -> Result<Many<Text>, OutOfMemory> {
    let mut words = Many::new(alloc);
    words.push(Text::of(String::from_str(alloc, "run")?))?;
    words.push(Text::of(String::from_str(alloc, "book")?))?;
    Ok(words)
}

/// How the run over a new book ended, and what a sink with so much room has kept of its answers.
fn ran<const ROOM: usize>(alloc: Global) -> Result<(Status, NoFailSink<ROOM>), OutOfMemory> {
    let words = run_words(alloc)?;
    let mut keeper = NoFailKeeper::new(alloc, Many::new(alloc));
    let mut input = NoFailSource::new(alloc, bytes_of(alloc, LINES)?, 1);
    let mut output = NoFailSink::new(alloc)?;
    let mut ports = MemPorts::new(alloc, Many::new(alloc), Many::new(alloc))?;
    let status = run_sure(
        alloc,
        words.as_slice(),
        &mut keeper,
        &mut input,
        &mut output,
        &mut ports,
    );
    Ok((status, output))
}

#[test]
fn lines_are_answered_whole(rt: HostRuntime) -> Result<(), Fail> {
    let (status, output) = ran::<1024>(rt.alloc())?;
    assert_eq!(rt; status, Status::Done);
    assert_eq!(rt; output.kept(), ANSWERS.as_bytes());
    Ok(())
}

#[test]
fn a_small_sink_keeps_the_first_answer(rt: HostRuntime) -> Result<(), Fail> {
    let (status, output) = ran::<45>(rt.alloc())?;
    assert_eq!(rt; status, Status::Done);
    assert_eq!(rt; output.kept(), &ANSWERS.as_bytes()[..45]);
    Ok(())
}
