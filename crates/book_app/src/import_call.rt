ghost use Rattle.std.specs.Prelude.{◌≡◌, None, IsTrue};
ghost use Rattle.book_lines.specs.RunClause.{at};
ghost use Rattle.book_engine.specs.Books.{machine_kept};
ghost use Rattle.book_engine.specs.Standing.{Stands};
ghost use Rattle.book_app.specs.Causes.{HasCauses, HasStreamCauses, in_streams, without_ports};
ghost use Rattle.book_app.specs.Later.{IsLater};
ghost use Rattle.book_app.specs.StatusClause.{HasBookPath, IsBookRun, IsImportRun, over};
ghost use Rattle.book_app.specs.Words.{Import, named_book};

use crate::importer::Importer;
use crate::opening::{open_book, room_after};
use crate::reply::Answering;
use crate::status::{Status, status_after, status_unopened};
use crate::words::{ImportWords, named_book};
use book_commodity::Text;
use book_keeper::{Keeper, Sink, Source};
use book_lines::{LineRoom, run_whole};
use std::alloc::Global;

/// Imports the input as one statement file, and writes the answer. It ends by Done, InputLimit, InputFault or
/// OutputFault alone; at InputLimit and InputFault the keeper was not asked.
fn import_input<K: Keeper, S: Source, O: Sink>(
    alloc: Global,
    importer: &mut Importer,
    keeper: &mut K,
    input: &mut S,
    output: &mut O,
    room: &mut LineRoom,
) -> Status
    requires stands { Stands K.Keeper keeper.old importer.old.engine }
    ensures run { IsImportRun importer.old.words
        (at (machine_kept importer.old.engine) (O.written output.old) (K.faults keeper.old))
        (S.left input.old) (S.left input.new)
        (at (machine_kept importer.new.engine) (O.written output.new) (K.faults keeper.new)) result }
    ensures limit { result ≡ Status.InputLimit → keeper.new ≡ keeper.old }
    ensures fault { result ≡ Status.InputFault → keeper.new ≡ keeper.old }
    ensures stands { Stands K.Keeper keeper.new importer.new.engine }
    ensures keeper { IsLater K.path_given K.honest K.sure keeper.old keeper.new }
    ensures causes { HasStreamCauses (in_streams (S.faults input.old) (O.faults output.old))
        (in_streams (S.faults input.new) (O.faults output.new)) result }
{
    status_after(run_whole::<Answering, K, Importer, S, O>(
        alloc, importer, keeper, input, output, room,
    ))
}

/// Opens the keeper at the book that the words name, and imports the input as one statement file, from the state as
/// which its rows open on.
pub fn run_import<K: Keeper, S: Source, O: Sink>(
    alloc: Global,
    words: &[Text],
    import: ImportWords,
    keeper: &mut K,
    input: &mut S,
    output: &mut O,
) -> Status
    ensures run { IsBookRun (Import import) (over K.Keeper keeper.old keeper.new) (S.left input.old)
        (S.left input.new) (O.written output.old) (O.written output.new) result }
    ensures path { HasBookPath words.now (K.path_given keeper.new) result }
    ensures honest { IsTrue (K.honest keeper.new) → IsTrue (K.honest keeper.old) }
    ensures sure { IsTrue (K.sure keeper.new) → IsTrue (K.sure keeper.old) }
    ensures untouched { result ≡ Status.Usage → keeper.new ≡ keeper.old }
    ensures causes { HasCauses (named_book words.now ≡ None)
        (without_ports (K.faults keeper.old) (S.faults input.old) (O.faults output.old))
        (without_ports (K.faults keeper.new) (S.faults input.new) (O.faults output.new)) result }
{
    let Some(book) = named_book(words) else {
        return Status::Usage;
    };
    let Ok(mut room) = room_after(alloc, words) else {
        return Status::Memory;
    };
    match open_book(alloc, keeper, book) {
        Ok(engine) => {
            let mut importer = Importer {
                engine,
                words: import,
            };
            import_input(alloc, &mut importer, keeper, input, output, &mut room)
        }
        Err(error) => status_unopened(error),
    }
}
