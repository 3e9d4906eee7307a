ghost use Rattle.std.specs.Prelude.{IfOk};
ghost use Rattle.book_lines.specs.EndFaults.{TellsFault};
ghost use Rattle.book_lines.specs.Lines.{AreAll, lines};
ghost use Rattle.book_lines.specs.Transcript.{IsTranscript};
ghost use Rattle.book_sample.specs.Sample.{sample_text};
ghost use Rattle.book_sample.specs.Shown.{IsShown};

use crate::last_lines::last_two_answers;
use crate::lines::sample_lines;
use book_commodity::{Bytes, Many, OutOfMemory};
use book_keeper::{Failed, MemSink, MemSource, Sink, write_all};
use book_lines::{LineRoom, Machine, RunEnd, run};
use std::alloc::Global;

/// The room for all answers, in bytes: 23,010 lines of about 100 bytes take 2.2 MiB.
const ANSWERS: usize = 4_194_304;

/// How many bytes of the lines are read at a time.
const PIECE: usize = 65_536;

/// How the showing of the sample ended: all was written; it was out of memory, and nothing was written; the output
/// failed.
#[derive(Clone, Copy, Debug, PartialEq, Eq)]
pub enum SampleEnd {
    Done,
    OutOfMemory,
    OutputFault,
}

/// The machine's answers to the lines of the sample of a number. OutOfMemory where there is not enough memory for the
/// lines and the answers.
fn answers_to<W, K, M: Machine<W, K>>(
    alloc: Global,
    machine: &mut M,
    keeper: &mut K,
    number: u64,
    room: &mut LineRoom,
) -> Result<MemSink, OutOfMemory>
    requires { M.stands machine.old keeper.old }
    ensures { IfOk result (λ sink. AreAll (sample_text number)
        × IsTranscript M.answers machine.old (lines (sample_text number)) sink.written machine.new) }
{
    let text = sample_lines(alloc, number)?;
    let bytes = Bytes::of(text.into_string().into_bytes());
    let mut lines = MemSource::new(bytes, PIECE, Many::new(alloc));
    let mut answers = MemSink::new(alloc, ANSWERS, Many::new(alloc))?;
    match run::<W, K, M, MemSource, MemSink>(
        alloc,
        machine,
        keeper,
        &mut lines,
        &mut answers,
        room,
    ) {
        RunEnd::Done => Ok(answers),
        RunEnd::InputLimit | RunEnd::InputFault | RunEnd::OutputFault => Err(OutOfMemory),
    }
}

/// Has a machine answer the lines of the sample of a number, and writes its last two answers. OutOfMemory where it or
/// the machine was out of memory, also at one line alone; then nothing is written. OutputFault comes exactly where the
/// output failed in this call.
pub fn show_sample<W, K, M: Machine<W, K>, O: Sink>(
    alloc: Global,
    machine: &mut M,
    keeper: &mut K,
    number: u64,
    output: &mut O,
    room: &mut LineRoom,
) -> SampleEnd
    requires { M.stands machine.old keeper.old }
    ensures shown { IsShown M.answers machine.old (sample_text number) (O.written output.old) (O.written output.new)
        result }
    ensures output_faults { TellsFault SampleEnd.OutputFault result (O.faults output.old) (O.faults output.new) }
{
    let Ok(answers) = answers_to::<W, K, M>(alloc, machine, keeper, number, room) else {
        return SampleEnd::OutOfMemory;
    };
    let Some(text) = last_two_answers(answers.written()) else {
        return SampleEnd::OutOfMemory;
    };
    match write_all(output, text) {
        Ok(()) => SampleEnd::Done,
        Err(Failed) => SampleEnd::OutputFault,
    }
}
