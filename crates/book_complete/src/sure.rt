ghost use Rattle.std.specs.Prelude.{ℕ, ◌≤◌, ◌^◌, length};
ghost use Rattle.book_lines.specs.Lines.{AreAll};
ghost use Rattle.book_engine.specs.Machine.{Machine};
ghost use Rattle.book_engine.specs.Opens.{Opens, OpensTo};
ghost use Rattle.book_app.specs.Words.{Import, Sample};
ghost use Rattle.book_app.specs.declared.words.ImportWords.{ImportWords};
ghost use Rattle.book_complete.specs.SureRun.{AreRunWords, AskFor, IsSureImport, IsSureRun, IsSureSample};

use crate::{NoFailKeeper, NoFailSink, NoFailSource};
use book_app::{Status, book_main};
use book_commodity::Text;
use book_ports::Ports;
use std::alloc::Global;

/// Does what the words ask over objects that never fail. With the words of `run`, rows that open as a machine, and an
/// input within the limits it ends by Done, with each line answered by that machine or told that there was no memory
/// for it, or by Memory before the first line. At Done the sink has kept the answers, as far as it has room. With the
/// words of `import` it is the same with the one answer to a file of at most 8 MiB, and with those of `sample` with its
/// last two answers.
pub fn run_sure<const ROOM: usize, P: Ports>(
    alloc: Global,
    words: &[Text],
    keeper: &mut NoFailKeeper,
    input: &mut NoFailSource,
    output: &mut NoFailSink<ROOM>,
    ports: &mut P,
) -> Status
    ensures lines { (machine : Machine) → AreRunWords words.now → OpensTo keeper.old.rows (Opens machine)
        → AreAll input.old.left
        → IsSureRun machine ROOM input.old input.new keeper.old keeper.new output.old output.new result }
    ensures import { (machine : Machine) (import : ImportWords) → AskFor words.now (Import import)
        → OpensTo keeper.old.rows (Opens machine) → length input.old.left ≤ 2 ^ 23
        → IsSureImport import machine ROOM input.old input.new keeper.old keeper.new output.old output.new result }
    ensures sample { (number : ℕ) → AskFor words.now (Sample number)
        → IsSureSample number ROOM output.old output.new result }
{
    // the keeper says here that its rows rise, before and after the run, and the sink that what it has kept fits
    let _ = keeper.rows();
    let _ = output.kept();
    let status = book_main(alloc, words, keeper, input, output, ports);
    let _ = keeper.rows();
    status
}
