ghost use Rattle.std.specs.Prelude.{◌≡◌, [], IfOk};
ghost use Rattle.book_lines.specs.EndFaults.{TellsFault};
ghost use Rattle.book_engine.specs.Machine.{fresh};
ghost use Rattle.book_sample.specs.Sample.{sample_text};
ghost use Rattle.book_sample.specs.Shown.{IsShown};
ghost use Rattle.book_app.specs.Machine.{answers};
ghost use Rattle.book_app.specs.Fresh.{IsFresh};

use crate::reply::Answering;
use book_commodity::{Many, OutOfMemory};
use book_engine::Engine;
use book_keeper::{MemKeeper, Sink};
use book_lines::LineRoom;
use book_sample::{SampleEnd, show_sample};
use std::alloc::Global;

/// The engine with a new book, from a keeper in memory without rows, which then stands for it.
fn fresh_engine(alloc: Global, keeper: &mut MemKeeper) -> Result<Engine, OutOfMemory>
    requires { keeper.old.rows ≡ [] }
    ensures { IfOk result (λ engine. IsFresh keeper.new engine) }
{
    match Engine::open(alloc, keeper) {
        Ok(engine) => {
            // the keeper says here that its rows rise, so that it is known to be sure of them
            let _ = keeper.rows();
            Ok(engine)
        }
        Err(_) => Err(OutOfMemory),
    }
}

/// Writes the last two answers to the lines of the sample of a number, from a new book in memory on.
pub(crate) fn show_in_memory<O: Sink>(
    alloc: Global,
    number: u64,
    output: &mut O,
    room: &mut LineRoom,
) -> SampleEnd
    ensures shown { IsShown answers fresh (sample_text number) (O.written output.old) (O.written output.new) result }
    ensures output_faults { TellsFault SampleEnd.OutputFault result (O.faults output.old) (O.faults output.new) }
{
    let mut keeper = MemKeeper::new(Many::new(alloc), Many::new(alloc));
    match fresh_engine(alloc, &mut keeper) {
        Ok(mut engine) => show_sample::<Answering, MemKeeper, Engine, O>(
            alloc,
            &mut engine,
            &mut keeper,
            number,
            output,
            room,
        ),
        Err(OutOfMemory) => SampleEnd::OutOfMemory,
    }
}
