ghost use Rattle.std.specs.Prelude.{◌≡◌, ◌≢◌, ◌↔◌, None, IfOk, IfSome, IsTrue, OnErr, MatchResult};
ghost use Rattle.std.specs.IoError.{error_kind};
ghost use Rattle.std.specs.Process.{exit_status};
ghost use Rattle.book_keeper.specs.OverStd.{left_of, sink_over, source_faults, sink_faults};
ghost use Rattle.book_keeper.specs.Written.{may_hold};
ghost use Rattle.book_app.specs.Causes.{HasCauses, counted};
ghost use Rattle.book_app.specs.Numbers.{number_of};
ghost use Rattle.book_serve.specs.Served.{link_reports};
ghost use Rattle.book_app.specs.ServeClause.{ServeClause, across};
ghost use Rattle.book_app.specs.StatusClause.{HasBookPath, IsBookRun, over};
ghost use Rattle.book_app.specs.Words.{AreNoWords, given_serve, given_work, named_serve, work_of};

use crate::main_call::book_main;
use crate::status::Status;
use book_commodity::Text;
use book_keeper::{FileSource, Keeper, StreamSink};
use book_ports::Ports;
use std::alloc::Global;
use std::io;
use std::io::{ErrorKind, Read, Write};
use std::process::{ExitCode, Termination};

/// How the program ended. The calls below alone make it, each from the status that it comes to, so a `main` that
/// answers it can't end by another number. It also writes the status's line on standard error, which no contract can
/// see and a test shows.
#[derive(Debug, Drop)]
pub struct Ended {
    status: Status,
}

/// What a run over a reader and a writer leaves: how it ended, the source over the reader and the sink over the writer.
#[derive(Drop)]
pub struct Ran<I, O> {
    pub ended: Ended,
    pub input: FileSource<I>,
    pub output: StreamSink<O>,
}

/// Does what the words ask over any reader and writer of std, as `book_main` does over the source and the sink that
/// join them: the answers to what the reader has left are added to what the writer holds. Links come from the ports.
pub fn run_over<K: Keeper, I: Read, O: Write, P: Ports>(
    alloc: Global,
    words: &[Text],
    keeper: &mut K,
    reader: I,
    writer: O,
    ports: &mut P,
) -> Ran<I, O>
    ensures run { IsBookRun (work_of words.now) (over K.Keeper keeper.old keeper.new)
        (I.remaining reader) (left_of I.remaining result.input)
        (may_hold O.contents (sink_over writer)) (may_hold O.contents result.output) result.ended.status }
    ensures path { HasBookPath words.now (K.path_given keeper.new) result.ended.status }
    ensures honest { IsTrue (K.honest keeper.new) → IsTrue (K.honest keeper.old) }
    ensures sure { IsTrue (K.sure keeper.new) → IsTrue (K.sure keeper.old) }
    ensures causes { HasCauses (AreNoWords words.now)
        (counted (K.faults keeper.old) 0 0 (P.faults ports.old))
        (counted (K.faults keeper.new) (source_faults result.input) (sink_faults result.output)
        (P.faults ports.new)) result.ended.status }
    ensures serve { IfSome (named_serve words.now) (λ serve. ServeClause serve
        (over K.Keeper keeper.old keeper.new)
        (link_reports P.L.left P.L.written P.L.Source.faults P.L.Sink.faults)
        (across P.coming P.closed P.accepted_links P.port_given ports.old ports.new) result.ended.status) }
    ensures other_words { named_serve words.now ≡ None → ports.new ≡ ports.old }
    ensures open_links { P.open_links ports.new ≡ P.open_links ports.old }
{
    let mut input = FileSource::new(reader);
    let mut output = StreamSink::new(writer);
    let status = book_main(alloc, words, keeper, &mut input, &mut output, ports);
    Ran {
        ended: Ended { status },
        input,
        output,
    }
}

/// Does what a program's words ask, if they could be read, as `run_over` does. Where they could not, nothing is read or
/// written, and it ends by Usage if one of them is not UTF-8, else by Memory.
pub(crate) fn run_words<K: Keeper, I: Read, O: Write, P: Ports>(
    alloc: Global,
    words: io::Result<Vec<Text>>,
    keeper: &mut K,
    reader: I,
    writer: O,
    ports: &mut P,
) -> Ran<I, O>
    ensures run { IsBookRun (given_work (λ given. given.items) words)
        (over K.Keeper keeper.old keeper.new) (I.remaining reader) (left_of I.remaining result.input)
        (may_hold O.contents (sink_over writer)) (may_hold O.contents result.output) result.ended.status }
    ensures path { IfOk words (λ given. HasBookPath given.items (K.path_given keeper.new) result.ended.status) }
    ensures honest { IsTrue (K.honest keeper.new) → IsTrue (K.honest keeper.old) }
    ensures sure { IsTrue (K.sure keeper.new) → IsTrue (K.sure keeper.old) }
    ensures memory { OnErr words (result.ended.status ≢ Status.Usage → result.ended.status ≡ Status.Memory) }
    ensures causes { HasCauses (MatchResult words
        (λ given. AreNoWords given.items) (λ error. error_kind error ≡ ErrorKind.InvalidData))
        (counted (K.faults keeper.old) 0 0 (P.faults ports.old))
        (counted (K.faults keeper.new) (source_faults result.input) (sink_faults result.output)
        (P.faults ports.new)) result.ended.status }
    ensures serve { IfSome (given_serve (λ given. given.items) words) (λ serve. ServeClause serve
        (over K.Keeper keeper.old keeper.new)
        (link_reports P.L.left P.L.written P.L.Source.faults P.L.Sink.faults)
        (across P.coming P.closed P.accepted_links P.port_given ports.old ports.new) result.ended.status) }
    ensures other_words { given_serve (λ given. given.items) words ≡ None → ports.new ≡ ports.old }
    ensures open_links { P.open_links ports.new ≡ P.open_links ports.old }
{
    match words {
        Ok(words) => run_over(alloc, words.as_slice(), keeper, reader, writer, ports),
        Err(error) => Ran {
            ended: Ended {
                status: status_without_words(&error),
            },
            input: FileSource::new(reader),
            output: StreamSink::new(writer),
        },
    }
}

/// The status where the words could not be read: Usage where one of them is not UTF-8, else Memory.
fn status_without_words(error: &io::Error) -> Status
    ensures usage { (result ≡ Status.Usage) ↔ (error_kind error.now ≡ ErrorKind.InvalidData) }
    ensures memory { result ≢ Status.Usage → result ≡ Status.Memory }
{
    if error.kind() == ErrorKind::InvalidData {
        Status::Usage
    } else {
        Status::Memory
    }
}

impl Termination for Ended {
    fn report<R: Eprint>(self, rt: &R) -> ExitCode
        ensures number { exit_status result ≡ number_of self.status }
    {
        self.status.report(rt)
    }
}

impl Termination for Status {
    /// Prints the message of a status other than Done on standard error, and ends with the status's number.
    fn report<R: Eprint>(self, rt: &R) -> ExitCode
        ensures number { exit_status result ≡ number_of self }
    {
        if self != Status::Done {
            let _ = rt.eprintln(self.message());
        }
        ExitCode::from(self.number())
    }
}
