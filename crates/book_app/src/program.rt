ghost use Rattle.std.specs.Prelude.{◌≡◌, ◌≢◌, None, IfOk, IfSome, IsTrue, MatchResult, OnErr};
ghost use Rattle.std.specs.IoError.{error_kind};
ghost use Rattle.book_serve.specs.Served.{link_reports};
ghost use Rattle.book_app.specs.Causes.{HasBookCauses, without_streams};
ghost use Rattle.book_app.specs.ServeClause.{ServeClause, across};
ghost use Rattle.book_app.specs.StatusClause.{HasBookPath, IsStreamRun, over};
ghost use Rattle.book_app.specs.Words.{AreNoWords, given_serve, given_work};

use crate::ended::{Ended, run_words};
use crate::status::Status;
use book_commodity::Text;
use book_keeper::Keeper;
use book_ports::Ports;
use std::env::Env;
use std::io::{ErrorKind, Input, Print};
use std::{env, io};

/// Does what the program's words ask, over this keeper and the program's standard streams. Std says nothing of what a
/// host's streams hold, so the bytes that were read and the text that was written are some bytes and some text; of
/// them and of the keeper's rows holds what `book_main` promises. Where the words could not be read it ends by Usage
/// if one of them is not UTF-8, else by Memory.
pub fn run_program<R: Input + Print + AllocGlobal, K: Keeper, P: Ports>(
    rt: &R,
    words: io::Result<Vec<Text>>,
    keeper: &mut K,
    ports: &mut P,
) -> Ended
    ensures run { IsStreamRun (given_work (λ given. given.items) words)
        (over K.Keeper keeper.old keeper.new) result.status }
    ensures path { IfOk words (λ given. HasBookPath given.items (K.path_given keeper.new) result.status) }
    ensures honest { IsTrue (K.honest keeper.new) → IsTrue (K.honest keeper.old) }
    ensures sure { IsTrue (K.sure keeper.new) → IsTrue (K.sure keeper.old) }
    ensures memory { OnErr words (result.status ≢ Status.Usage → result.status ≡ Status.Memory) }
    ensures causes { HasBookCauses (MatchResult words
        (λ given. AreNoWords given.items) (λ error. error_kind error ≡ ErrorKind.InvalidData))
        (without_streams (K.faults keeper.old) (P.faults ports.old))
        (without_streams (K.faults keeper.new) (P.faults ports.new)) result.status }
    ensures serve { IfSome (given_serve (λ given. given.items) words) (λ serve. ServeClause serve
        (over K.Keeper keeper.old keeper.new)
        (link_reports P.L.left P.L.written P.L.Source.faults P.L.Sink.faults)
        (across P.coming P.closed P.accepted_links P.port_given ports.old ports.new) result.status) }
    ensures other_words { given_serve (λ given. given.items) words ≡ None → ports.new ≡ ports.old }
    ensures open_links { P.open_links ports.new ≡ P.open_links ports.old }
{
    run_words(
        rt.alloc(),
        words,
        keeper,
        rt.reader(),
        io::writer(rt),
        ports,
    )
    .ended
}

/// The words behind the program's name. An error of kind InvalidData where one of them is not UTF-8, else out of
/// memory.
pub fn words_of<R: Env + AllocGlobal>(rt: &R) -> io::Result<Vec<Text>> {
    let mut words = Vec::new(rt.alloc());
    for word in env::args(rt)?.skip(1) {
        words.push(Text::of(word))?;
    }
    Ok(words)
}
