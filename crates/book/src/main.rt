//! The program `book`: `run_program` does what its words ask, over the standard streams, the ports of this machine and
//! a keeper of the SQLite file that the words name. What it answers, `Ended`, says on standard error what went wrong
//! and gives the number that the program ends with.
#![tactic(auto)]

ghost use Rattle.sqlite.specs.Files.{over_files};
ghost use Rattle.sqlite.specs.WalFiles.{image_at};
ghost use Rattle.std.specs.Prelude.{◌≡◌, ◌≢◌, IfOk, IfSome, MatchResult, None, OnErr};
ghost use Rattle.std.specs.IoError.{error_kind};
ghost use Rattle.book_ports.specs.OverTcp.{accepted_by, left_of, links_of, port_of, read_faults_of, written_to};
ghost use Rattle.book_ports.specs.OverTcp.{write_faults_of};
ghost use Rattle.book_serve.specs.Served.{link_reports};
ghost use Rattle.book_app.specs.Causes.{HasBookCauses, without_streams};
ghost use Rattle.book_app.specs.ServeClause.{ServeClause, across};
ghost use Rattle.book_app.specs.StatusClause.{HasBookPath, IsStreamRun};
ghost use Rattle.book_app.specs.Words.{AreNoWords, given_serve, given_work};
ghost use Rattle.book_sqlite.specs.KeeperInSqlite.{HoldsRows, MayLeave, has_clean_store, is_sure};
ghost use Rattle.book.specs.FileRun.{over_file};

use book_app::{Ended, Status, named_book, run_program, words_of};
use book_commodity::Text;
use book_ports::TcpPorts;
use book_sqlite::FileKeeper;
use sqlite::{Start, Unknown};
use std::io;
use std::io::ErrorKind;

/// The book that the words name, where they could be read and name one.
fn book_in(words: &io::Result<Vec<Text>>) -> Option<&str> {
    match words {
        Ok(words) => named_book(words.as_slice()),
        Err(_) => None,
    }
}

/// The whole run, over the file that the words name, and the keeper over that file as the run left it. `T` stands for
/// what the file and its log held before. It is proved for every `T`, so it holds of any file.
fn run_in<T: Start>(
    rt: &HostRuntime,
    words: io::Result<Vec<Text>>,
    start: T,
    ports: &mut TcpPorts<&HostRuntime>,
) -> (Ended, FileKeeper<T>)
    ensures run { IsStreamRun (given_work (λ given. given.items) words)
        (over_file (image_at T.Start) (has_clean_store over_files) (is_sure over_files) (HoldsRows over_files)
        (MayLeave over_files) (λ keeper. keeper.faults) result.1)
        result.0.status }
    ensures path { IfOk words (λ given. HasBookPath given.items result.1.path result.0.status) }
    ensures memory { OnErr words (result.0.status ≢ Status.Usage → result.0.status ≡ Status.Memory) }
    ensures causes { HasBookCauses (MatchResult words
        (λ given. AreNoWords given.items) (λ error. error_kind error ≡ ErrorKind.InvalidData))
        (without_streams 0 ports.old.faults)
        (without_streams result.1.faults ports.new.faults) result.0.status }
    ensures serve { IfSome (given_serve (λ given. given.items) words) (λ serve. ServeClause serve
        (over_file (image_at T.Start) (has_clean_store over_files) (is_sure over_files) (HoldsRows over_files)
        (MayLeave over_files) (λ keeper. keeper.faults) result.1)
        (link_reports left_of written_to read_faults_of write_faults_of)
        (across links_of links_of accepted_by port_of ports.old ports.new) result.0.status) }
    ensures other_words { given_serve (λ given. given.items) words ≡ None → ports.new ≡ ports.old }
    ensures open_links { ports.new.open_links ≡ ports.old.open_links }
{
    let mut keeper = FileKeeper::at(rt, book_in(&words), start);
    let ended = run_program(rt, words, &mut keeper, ports);
    (ended, keeper)
}

fn main(rt: HostRuntime) -> Ended {
    let words = words_of(&rt);
    let mut ports = TcpPorts::new(&rt);
    let (ended, keeper) = run_in(&rt, words, Unknown, &mut ports);
    // Where this fails, the log stays beside the file, and the next run takes it.
    let _ = keeper.close();
    ended
}
