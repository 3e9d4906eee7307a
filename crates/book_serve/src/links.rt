ghost use Rattle.std.specs.Prelude.{◌≡◌, Err, IfErr, OnOk};
ghost use Rattle.book_lines.specs.EndFaults.{TellsFault};
ghost use Rattle.book_lines.specs.RunClause.{at};
ghost use Rattle.book_serve.specs.Link.{HasAnsweredLink};
ghost use Rattle.book_serve.specs.Served.{EndsServing, HasServedNext, IsServing, server_state, link_reports};

use crate::{LinkEnd, Responder, ServeEnd, serve_link};
use book_http::Routes;
use book_keeper::Failed;
use book_ports::{Link, Ports};
use std::alloc::Global;

/// Serves a link, and gives it back with how it ended.
fn serve_whole<W, K, M: Responder<W, K>, L: Link>(
    alloc: Global,
    machine: &mut M,
    keeper: &mut K,
    routes: &Routes,
    link: L,
) -> (L, LinkEnd)
    requires { M.stands machine.old keeper.old }
    ensures served { let before = at machine.old (L.written link) (M.faults keeper.old) in
        let after = at machine.new (L.written result.0) (M.faults keeper.new) in
        HasAnsweredLink M.answers (L.left link) (L.left result.0) before after result.1 }
    ensures read_faults { TellsFault LinkEnd.ReadFault result.1 (L.Source.faults link) (L.Source.faults result.0) }
    ensures write_faults { TellsFault LinkEnd.WriteFault result.1 (L.Sink.faults link) (L.Sink.faults result.0) }
    ensures stands { M.stands machine.new keeper.new }
    ensures follows { M.follows keeper.old keeper.new }
{
    let (mut input, mut output) = link.part();
    let end = serve_link(alloc, machine, keeper, routes, &mut input, &mut output);
    (L::join(input, output), end)
}

/// Serves the next link that comes to the port, and closes it whatever its end. It says how the serving of links ends
/// where it does.
fn serve_next_link<W, K, M: Responder<W, K>, P: Ports>(
    alloc: Global,
    machine: &mut M,
    keeper: &mut K,
    routes: &Routes,
    ports: &mut P,
    port: u16,
) -> Result<(), ServeEnd>
    requires { M.stands machine.old keeper.old }
    ensures served { let of = link_reports P.L.left P.L.written P.L.Source.faults P.L.Sink.faults in
        let before = server_state machine.old (M.faults keeper.old) (P.coming ports.old) (P.closed ports.old)
        (P.accepted_links ports.old) (P.port_given ports.old) in
        let after = server_state machine.new (M.faults keeper.new) (P.coming ports.new) (P.closed ports.new)
        (P.accepted_links ports.new) (P.port_given ports.new) in
        OnOk result (HasServedNext M.answers of port before after) }
    ensures ended { let of = link_reports P.L.left P.L.written P.L.Source.faults P.L.Sink.faults in
        let before = server_state machine.old (M.faults keeper.old) (P.coming ports.old) (P.closed ports.old)
        (P.accepted_links ports.old) (P.port_given ports.old) in
        let after = server_state machine.new (M.faults keeper.new) (P.coming ports.new) (P.closed ports.new)
        (P.accepted_links ports.new) (P.port_given ports.new) in
        IfErr result (EndsServing M.answers of port before after) }
    ensures open_links { P.open_links ports.new ≡ P.open_links ports.old }
    ensures port_faults { TellsFault (Err ServeEnd.PortFault) result (P.faults ports.old) (P.faults ports.new) }
    ensures stands { M.stands machine.new keeper.new }
    ensures follows { M.follows keeper.old keeper.new }
{
    let link = match ports.accept(port) {
        Ok(Some(link)) => link,
        Ok(None) => return Err(ServeEnd::Done),
        Err(Failed) => return Err(ServeEnd::PortFault),
    };
    let (link, end) = serve_whole(alloc, machine, keeper, routes, link);
    ports.close(link);
    match end {
        LinkEnd::OutOfMemory => Err(ServeEnd::OutOfMemory),
        _ => Ok(()),
    }
}

/// Serves at most so many links that come to the port, one after the other, and closes each whatever its end. Where a
/// link ended since there was no memory, no more are accepted. It says how it ended.
pub fn serve<W, K, M: Responder<W, K>, P: Ports>(
    alloc: Global,
    machine: &mut M,
    keeper: &mut K,
    routes: &Routes,
    ports: &mut P,
    port: u16,
    links: u64,
) -> ServeEnd
    requires { M.stands machine.old keeper.old }
    ensures served { let of = link_reports P.L.left P.L.written P.L.Source.faults P.L.Sink.faults in
        let before = server_state machine.old (M.faults keeper.old) (P.coming ports.old) (P.closed ports.old)
        (P.accepted_links ports.old) (P.port_given ports.old) in
        let after = server_state machine.new (M.faults keeper.new) (P.coming ports.new) (P.closed ports.new)
        (P.accepted_links ports.new) (P.port_given ports.new) in
        IsServing M.answers of links port before after result }
    ensures open_links { P.open_links ports.new ≡ P.open_links ports.old }
    ensures port_faults { TellsFault ServeEnd.PortFault result (P.faults ports.old) (P.faults ports.new) }
    ensures stands { M.stands machine.new keeper.new }
    ensures follows { M.follows keeper.old keeper.new }
{
    let mut count: u64 = 0;
    'links: while count < links {
        if let Err(end) = serve_next_link(alloc, machine, keeper, routes, ports, port) {
            return end;
        }
        count += 1;
    }
    ServeEnd::Done
}
