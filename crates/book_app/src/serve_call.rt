ghost use Rattle.std.specs.Prelude.{◌≡◌, None, IsTrue};
ghost use Rattle.book_lines.specs.EndFaults.{TellsFault};
ghost use Rattle.book_engine.specs.Standing.{Stands};
ghost use Rattle.book_serve.specs.Served.{IsServing, server_state, link_reports};
ghost use Rattle.book_app.specs.Causes.{HasBookCauses, without_streams};
ghost use Rattle.book_app.specs.Later.{IsLater};
ghost use Rattle.book_app.specs.Numbers.{status_served};
ghost use Rattle.book_app.specs.Respond.{kept_answers};
ghost use Rattle.book_app.specs.ServeClause.{ServeClause, across};
ghost use Rattle.book_app.specs.StatusClause.{HasBookPath, ServedRows, over};
ghost use Rattle.book_app.specs.Words.{named_book};

use crate::opening::{open_book, routes_after};
use crate::reply::Answering;
use crate::status::{Status, status_served, status_unopened};
use crate::words::{ServeWords, named_book};
use book_commodity::Text;
use book_engine::Engine;
use book_http::Routes;
use book_keeper::Keeper;
use book_ports::Ports;
use book_serve::{ServeEnd, serve};
use std::alloc::Global;

/// Serves the links that come to the port, from the engine's state on.
fn serve_links<K: Keeper, P: Ports>(
    alloc: Global,
    engine: &mut Engine,
    keeper: &mut K,
    routes: &Routes,
    ports: &mut P,
    words: ServeWords,
) -> ServeEnd
    requires stands { Stands K.Keeper keeper.old engine.old }
    ensures served { IsServing kept_answers (link_reports P.L.left P.L.written P.L.Source.faults P.L.Sink.faults)
        words.links words.port
        (server_state engine.old (K.faults keeper.old) (P.coming ports.old) (P.closed ports.old)
        (P.accepted_links ports.old) (P.port_given ports.old))
        (server_state engine.new (K.faults keeper.new) (P.coming ports.new) (P.closed ports.new)
        (P.accepted_links ports.new) (P.port_given ports.new))
        result }
    ensures stands { Stands K.Keeper keeper.new engine.new }
    ensures keeper { IsLater K.path_given K.honest K.sure keeper.old keeper.new }
    ensures open_links { P.open_links ports.new ≡ P.open_links ports.old }
    ensures port_faults { TellsFault ServeEnd.PortFault result (P.faults ports.old) (P.faults ports.new) }
{
    serve::<Answering, K, Engine, P>(
        alloc,
        engine,
        keeper,
        routes,
        ports,
        words.port,
        words.links,
    )
}

/// Opens the keeper at the book that the words name, and serves the links that come to the port, from the state as
/// which its rows open on.
pub fn run_serve<K: Keeper, P: Ports>(
    alloc: Global,
    words: &[Text],
    serve: ServeWords,
    keeper: &mut K,
    ports: &mut P,
) -> Status
    ensures rows { ServedRows (over K.Keeper keeper.old keeper.new) result }
    ensures serve { ServeClause serve (over K.Keeper keeper.old keeper.new)
        (link_reports P.L.left P.L.written P.L.Source.faults P.L.Sink.faults)
        (across P.coming P.closed P.accepted_links P.port_given ports.old ports.new) result }
    ensures open_links { P.open_links ports.new ≡ P.open_links ports.old }
    ensures path { HasBookPath words.now (K.path_given keeper.new) result }
    ensures honest { IsTrue (K.honest keeper.new) → IsTrue (K.honest keeper.old) }
    ensures sure { IsTrue (K.sure keeper.new) → IsTrue (K.sure keeper.old) }
    ensures untouched { result ≡ Status.Usage → keeper.new ≡ keeper.old }
    ensures causes { HasBookCauses (named_book words.now ≡ None)
        (without_streams (K.faults keeper.old) (P.faults ports.old))
        (without_streams (K.faults keeper.new) (P.faults ports.new)) result }
{
    let Some(book) = named_book(words) else {
        return Status::Usage;
    };
    let Ok(routes) = routes_after(alloc, words) else {
        return Status::Memory;
    };
    match open_book(alloc, keeper, book) {
        Ok(mut engine) => {
            status_served(serve_links(alloc, &mut engine, keeper, &routes, ports, serve))
        }
        Err(error) => status_unopened(error),
    }
}
