ghost use Rattle.std.specs.Prelude.{◌≢◌, [], Err, IfErr, OnOk};
ghost use Rattle.book_lines.specs.EndFaults.{TellsFault};
ghost use Rattle.book_lines.specs.RunClause.{at};
ghost use Rattle.book_serve.specs.Link.{HasAnsweredLink, IsServed};
ghost use Rattle.book_serve.specs.Serving.{HasAnsweredNext};

use crate::answer::{answer_request, refuse};
use crate::{LinkEnd, Responder};
use book_http::{Inbox, Next, NextError, Routes, next_request};
use book_keeper::{Sink, Source};
use std::alloc::Global;

/// How many requests of a link are answered at most.
const MAX_REQUESTS: u64 = 1_000_000;

/// Takes the next request of the link and answers it. It says how the link ends where it does.
fn serve_next<W, K, M: Responder<W, K>, S: Source, O: Sink>(
    alloc: Global,
    machine: &mut M,
    keeper: &mut K,
    routes: &Routes,
    inbox: &mut Inbox,
    input: &mut S,
    output: &mut O,
) -> Result<(), LinkEnd>
    requires { M.stands machine.old keeper.old }
    ensures stepped { let before = at machine.old (O.written output.old) (M.faults keeper.old) in
        let after = at machine.new (O.written output.new) (M.faults keeper.new) in
        OnOk result (HasAnsweredNext M.answers inbox.old inbox.new (S.left input.old) (S.left input.new) before after) }
    ensures ended { let before = at machine.old (O.written output.old) (M.faults keeper.old) in
        let after = at machine.new (O.written output.new) (M.faults keeper.new) in
        IfErr result (IsServed M.answers 1 inbox.old (S.left input.old) (S.left input.new) before after) }
    ensures unlimited { result ≢ Err LinkEnd.Limit }
    ensures read_faults { TellsFault (Err LinkEnd.ReadFault) result (S.faults input.old) (S.faults input.new) }
    ensures write_faults { TellsFault (Err LinkEnd.WriteFault) result (O.faults output.old) (O.faults output.new) }
    ensures stands { M.stands machine.new keeper.new }
    ensures follows { M.follows keeper.old keeper.new }
{
    match next_request(alloc, routes, inbox, input) {
        Ok(Next::Request(request)) => answer_request(alloc, machine, keeper, output, request),
        Ok(Next::Refused(status)) => Err(refuse(alloc, output, status)),
        Ok(Next::End) => Err(LinkEnd::Done),
        Ok(Next::Cut) => Err(LinkEnd::Cut),
        Err(NextError::ReadFault) => Err(LinkEnd::ReadFault),
        Err(NextError::OutOfMemory) => Err(LinkEnd::OutOfMemory),
    }
}

/// Answers the requests of a link one after the other, each by one response, and says how it ended. `input` and
/// `output` are its two sides. A request that is refused, or that closes the link, is its last: bytes behind it are not
/// used, and may be left unread.
pub fn serve_link<W, K, M: Responder<W, K>, S: Source, O: Sink>(
    alloc: Global,
    machine: &mut M,
    keeper: &mut K,
    routes: &Routes,
    input: &mut S,
    output: &mut O,
) -> LinkEnd
    requires { M.stands machine.old keeper.old }
    ensures served { let before = at machine.old (O.written output.old) (M.faults keeper.old) in
        let after = at machine.new (O.written output.new) (M.faults keeper.new) in
        HasAnsweredLink M.answers (S.left input.old) (S.left input.new) before after result }
    ensures read_faults { TellsFault LinkEnd.ReadFault result (S.faults input.old) (S.faults input.new) }
    ensures write_faults { TellsFault LinkEnd.WriteFault result (O.faults output.old) (O.faults output.new) }
    ensures stands { M.stands machine.new keeper.new }
    ensures follows { M.follows keeper.old keeper.new }
{
    let mut inbox = Inbox::new(alloc);
    let mut count: u64 = 0;
    'requests: while count < MAX_REQUESTS {
        if let Err(end) = serve_next(alloc, machine, keeper, routes, &mut inbox, input, output) {
            return end;
        }
        count += 1;
    }
    LinkEnd::Limit
}
