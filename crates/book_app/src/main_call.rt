ghost use Rattle.std.specs.Prelude.{◌≡◌, ◌≢◌, None, IfSome, IsTrue};
ghost use Rattle.book_lines.specs.EndFaults.{TellsFault};
ghost use Rattle.book_lines.specs.RunClause.{at};
ghost use Rattle.book_engine.specs.Books.{machine_kept};
ghost use Rattle.book_engine.specs.Standing.{Stands};
ghost use Rattle.book_serve.specs.Served.{link_reports};
ghost use Rattle.book_app.specs.Causes.{HasCauses, HasStreamCauses, counted, in_streams, without_ports};
ghost use Rattle.book_app.specs.ServeClause.{ServeClause, across};
ghost use Rattle.book_app.specs.StatusClause.{HasBookPath, IsBookRun, IsLineRun, IsShownAs, over};
ghost use Rattle.book_app.specs.Later.{IsLater};
ghost use Rattle.book_app.specs.Words.{AreNoWords, Lines, named_book, named_import, named_number, named_serve};
ghost use Rattle.book_app.specs.Words.{work_named, work_of};

use crate::import_call::run_import;
use crate::opening::{open_book, room_after};
use crate::reply::Answering;
use crate::sample::show_in_memory;
use crate::serve_call::run_serve;
use crate::status::{Status, status_after, status_shown, status_unopened};
use crate::words::{named_book, named_import, named_number, named_serve};
use book_commodity::Text;
use book_engine::Engine;
use book_keeper::{Keeper, Sink, Source};
use book_lines::{LineRoom, run};
use book_ports::Ports;
use std::alloc::Global;

/// Answers the lines of the input on the output, from the engine's state on, and keeps each change by the keeper,
/// whose rows stand for that state, as far as it still knows them. It ends by Done, InputLimit, InputFault or
/// OutputFault alone. InputFault and OutputFault come exactly where the input or the output failed in this call.
pub fn run_lines<K: Keeper, S: Source, O: Sink>(
    alloc: Global,
    engine: &mut Engine,
    keeper: &mut K,
    input: &mut S,
    output: &mut O,
    room: &mut LineRoom,
) -> Status
    requires stands { Stands K.Keeper keeper.old engine.old }
    ensures run { IsLineRun (at (machine_kept engine.old) (O.written output.old) (K.faults keeper.old))
        (S.left input.old) (S.left input.new)
        (at (machine_kept engine.new) (O.written output.new) (K.faults keeper.new)) result }
    ensures stands { Stands K.Keeper keeper.new engine.new }
    ensures keeper { IsLater K.path_given K.honest K.sure keeper.old keeper.new }
    ensures causes { HasStreamCauses (in_streams (S.faults input.old) (O.faults output.old))
        (in_streams (S.faults input.new) (O.faults output.new)) result }
{
    status_after(run::<Answering, K, Engine, S, O>(alloc, engine, keeper, input, output, room))
}

/// Opens the keeper at the book that the words name, and answers the lines of the input, from the state as which its
/// rows open on. The words are not those of `import`, `serve` or `sample`.
fn run_book<K: Keeper, S: Source, O: Sink>(
    alloc: Global,
    words: &[Text],
    keeper: &mut K,
    input: &mut S,
    output: &mut O,
) -> Status
    ensures run { IsBookRun Lines (over K.Keeper keeper.old keeper.new) (S.left input.old)
        (S.left input.new) (O.written output.old) (O.written output.new) result }
    ensures path { HasBookPath words.now (K.path_given keeper.new) result }
    ensures honest { IsTrue (K.honest keeper.new) → IsTrue (K.honest keeper.old) }
    ensures sure { IsTrue (K.sure keeper.new) → IsTrue (K.sure keeper.old) }
    ensures untouched { result ≡ Status.Usage → keeper.new ≡ keeper.old }
    ensures causes { HasCauses (named_book words.now ≡ None)
        (without_ports (K.faults keeper.old) (S.faults input.old) (O.faults output.old))
        (without_ports (K.faults keeper.new) (S.faults input.new) (O.faults output.new)) result }
{
    let Some(book) = named_book(words) else {
        return Status::Usage;
    };
    let Ok(mut room) = room_after(alloc, words) else {
        return Status::Memory;
    };
    match open_book(alloc, keeper, book) {
        Ok(mut engine) => run_lines(alloc, &mut engine, keeper, input, output, &mut room),
        Err(error) => status_unopened(error),
    }
}

/// Shows the sample of the number that the words name, once `clap` has parted them.
fn run_sample<O: Sink>(alloc: Global, words: &[Text], number: u64, output: &mut O) -> Status
    ensures shown { IsShownAs number (O.written output.old) (O.written output.new) result }
    ensures output_faults { TellsFault Status.OutputFault result (O.faults output.old) (O.faults output.new) }
{
    let Ok(mut room) = room_after(alloc, words) else {
        return Status::Memory;
    };
    status_shown(show_in_memory(alloc, number, output, &mut room))
}

/// Answers the lines of the input, or imports it, as words ask that are not those of `serve` or `sample`.
fn run_over_input<K: Keeper, S: Source, O: Sink>(
    alloc: Global,
    words: &[Text],
    keeper: &mut K,
    input: &mut S,
    output: &mut O,
) -> Status
    ensures run { IsBookRun (work_named (named_import words.now) None None)
        (over K.Keeper keeper.old keeper.new)
        (S.left input.old) (S.left input.new) (O.written output.old) (O.written output.new) result }
    ensures path { HasBookPath words.now (K.path_given keeper.new) result }
    ensures honest { IsTrue (K.honest keeper.new) → IsTrue (K.honest keeper.old) }
    ensures sure { IsTrue (K.sure keeper.new) → IsTrue (K.sure keeper.old) }
    ensures untouched { result ≡ Status.Usage → keeper.new ≡ keeper.old }
    ensures causes { HasCauses (named_book words.now ≡ None)
        (without_ports (K.faults keeper.old) (S.faults input.old) (O.faults output.old))
        (without_ports (K.faults keeper.new) (S.faults input.new) (O.faults output.new)) result }
{
    match named_import(words) {
        Some(import) => run_import(alloc, words, import, keeper, input, output),
        None => run_book(alloc, words, keeper, input, output),
    }
}

/// Does what words ask that name a book: the lines of the input are answered, or it is imported, or links are served.
fn run_with_book<K: Keeper, S: Source, O: Sink, P: Ports>(
    alloc: Global,
    words: &[Text],
    keeper: &mut K,
    input: &mut S,
    output: &mut O,
    ports: &mut P,
) -> Status
    ensures run { IsBookRun (work_named (named_import words.now) (named_serve words.now) None)
        (over K.Keeper keeper.old keeper.new)
        (S.left input.old) (S.left input.new) (O.written output.old) (O.written output.new) result }
    ensures path { HasBookPath words.now (K.path_given keeper.new) result }
    ensures honest { IsTrue (K.honest keeper.new) → IsTrue (K.honest keeper.old) }
    ensures sure { IsTrue (K.sure keeper.new) → IsTrue (K.sure keeper.old) }
    ensures untouched { result ≡ Status.Usage → keeper.new ≡ keeper.old }
    ensures causes { HasCauses (named_book words.now ≡ None)
        (counted (K.faults keeper.old) (S.faults input.old) (O.faults output.old) (P.faults ports.old))
        (counted (K.faults keeper.new) (S.faults input.new) (O.faults output.new) (P.faults ports.new)) result }
    ensures serve { IfSome (named_serve words.now) (λ serve. ServeClause serve
        (over K.Keeper keeper.old keeper.new)
        (link_reports P.L.left P.L.written P.L.Source.faults P.L.Sink.faults)
        (across P.coming P.closed P.accepted_links P.port_given ports.old ports.new) result) }
    ensures other_words { named_serve words.now ≡ None → ports.new ≡ ports.old }
    ensures open_links { P.open_links ports.new ≡ P.open_links ports.old }
{
    match named_serve(words) {
        Some(serve) => run_serve(alloc, words, serve, keeper, ports),
        None => run_over_input(alloc, words, keeper, input, output),
    }
}

/// Does what the words ask. `run BOOK` opens the keeper at BOOK and answers the lines of the input, from the state as
/// which its rows open on. Before the first line, the file or the first link the rows of a book of format 1 are written
/// anew in format 2. `import BOOK FORMAT ACCOUNT CURRENCY` opens it too, and answers the whole input, of at most
/// 8 MiB, as the import of one statement file. `serve BOOK PORT LINKS` opens it too, and answers the requests of LINKS
/// links that come to PORT, one link after the other; it leaves the input and the output as they were. `sample NUMBER`
/// writes the last two answers to the lines of the sample of NUMBER, from a new book in memory on; it leaves the keeper
/// and the input as they were, and ends by Done, Memory or OutputFault. Usage comes exactly where the words are not
/// these; Memory where it is out of memory before the input is read or a link comes, at any time in a sample, and where
/// a link ends by OutOfMemory (what is out of memory while a request is answered is said in its response); KeeperFault
/// where the keeper failed before that, and its count of faults rose; BadRows and UnsoundBook where the rows are no rows
/// of a sound book; over such rows `run`, `import` and `serve` end by one of these five alone. InputFault and
/// OutputFault come exactly where the input or the output failed in this call, and PortFault exactly where the ports
/// did.
pub fn book_main<K: Keeper, S: Source, O: Sink, P: Ports>(
    alloc: Global,
    words: &[Text],
    keeper: &mut K,
    input: &mut S,
    output: &mut O,
    ports: &mut P,
) -> Status
    ensures run { IsBookRun (work_of words.now) (over K.Keeper keeper.old keeper.new)
        (S.left input.old) (S.left input.new) (O.written output.old) (O.written output.new) result }
    ensures path { HasBookPath words.now (K.path_given keeper.new) result }
    ensures honest { IsTrue (K.honest keeper.new) → IsTrue (K.honest keeper.old) }
    ensures sure { IsTrue (K.sure keeper.new) → IsTrue (K.sure keeper.old) }
    ensures untouched { result ≡ Status.Usage → keeper.new ≡ keeper.old }
    ensures sample { named_number words.now ≢ None → keeper.new ≡ keeper.old }
    ensures causes { HasCauses (AreNoWords words.now)
        (counted (K.faults keeper.old) (S.faults input.old) (O.faults output.old) (P.faults ports.old))
        (counted (K.faults keeper.new) (S.faults input.new) (O.faults output.new) (P.faults ports.new)) result }
    ensures serve { IfSome (named_serve words.now) (λ serve. ServeClause serve
        (over K.Keeper keeper.old keeper.new)
        (link_reports P.L.left P.L.written P.L.Source.faults P.L.Sink.faults)
        (across P.coming P.closed P.accepted_links P.port_given ports.old ports.new) result) }
    ensures other_words { named_serve words.now ≡ None → ports.new ≡ ports.old }
    ensures open_links { P.open_links ports.new ≡ P.open_links ports.old }
{
    match named_number(words) {
        Some(number) => run_sample(alloc, words, number, output),
        None => run_with_book(alloc, words, keeper, input, output, ports),
    }
}
