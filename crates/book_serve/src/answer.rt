ghost use Rattle.std.specs.Prelude.{◌≡◌, true, false, Err, IfErr, IfOk, IsTrue, OnOk, OnErr};
ghost use Rattle.book_keeper.specs.Faults.{HasCause};
ghost use Rattle.book_keeper.specs.Stream.{Wrote, WrotePart};
ghost use Rattle.book_lines.specs.EndFaults.{TellsFault};
ghost use Rattle.book_lines.specs.Loop.{text_of};
ghost use Rattle.book_lines.specs.Marks.{memory_answer, keeper_answer};
ghost use Rattle.book_lines.specs.RunClause.{at};
ghost use Rattle.book_http.specs.Response.{is_answered, refusal, response};
ghost use Rattle.book_serve.specs.Serving.{response_of, status_of, EndsByRequest, EndsByRefusal, HasReplied};

use crate::{LinkEnd, Responder};
use book_commodity::{Bytes, OutOfMemory};
use book_http::{Request, refusal_body, response_bytes};
use book_keeper::{Failed, Sink, write_all};
use book_lines::Unanswered;
use std::alloc::Global;

/// The response to a request for which the machine was out of memory.
const MEMORY: &[u8] = b"HTTP/1.1 507 Insufficient Storage\r\n\
    Content-Type: application/json\r\nContent-Length: 20\r\n\r\n\
    {\"refused\":\"memory\"}";

/// The same to a request that closes the link.
const LAST_MEMORY: &[u8] = b"HTTP/1.1 507 Insufficient Storage\r\n\
    Content-Type: application/json\r\nContent-Length: 20\r\nConnection: close\r\n\r\n\
    {\"refused\":\"memory\"}";

/// The response to a request whose change could not be kept.
const KEEPER: &[u8] = b"HTTP/1.1 503 Service Unavailable\r\n\
    Content-Type: application/json\r\nContent-Length: 20\r\n\r\n\
    {\"refused\":\"keeper\"}";

/// The same to a request that closes the link.
const LAST_KEEPER: &[u8] = b"HTTP/1.1 503 Service Unavailable\r\n\
    Content-Type: application/json\r\nContent-Length: 20\r\nConnection: close\r\n\r\n\
    {\"refused\":\"keeper\"}";

/// The response to a request for which the machine was out of memory; it takes none.
fn memory_response(close: bool) -> &'static [u8]
    ensures { result.now ≡ response 507 memory_answer close }
{
    if close { LAST_MEMORY } else { MEMORY }
}

/// The response to a request whose change could not be kept; it takes no memory.
fn keeper_response(close: bool) -> &'static [u8]
    ensures { result.now ≡ response 503 keeper_answer close }
{
    if close { LAST_KEEPER } else { KEEPER }
}

/// The response that says why the machine gave none.
fn stand_in(unanswered: Unanswered, close: bool) -> &'static [u8]
    ensures { result.now ≡ response (status_of unanswered) (text_of unanswered) close }
{
    match unanswered {
        Unanswered::Memory => memory_response(close),
        Unanswered::Keeper => keeper_response(close),
    }
}

/// Writes the response to a request, or the one that says why there is none.
fn write_response<O: Sink>(
    output: &mut O,
    answered: Result<Bytes, Unanswered>,
    close: bool,
) -> Result<(), Failed>
    ensures all { OnOk result (Wrote (O.written output.old) (O.written output.new) (response_of close answered)) }
    ensures part { OnErr result (WrotePart (O.written output.old) (O.written output.new) (response_of close answered)) }
    ensures cause { HasCause (O.faults output.old) (O.faults output.new) result }
{
    match answered {
        Ok(bytes) => write_all(output, bytes.as_slice()),
        Err(unanswered) => write_all(output, stand_in(unanswered, close)),
    }
}

/// Has the machine answer a request, and writes the response. It says how the link ends where it does: Done where the
/// request closes it, WriteFault where the output failed.
pub fn answer_request<W, K, M: Responder<W, K>, O: Sink>(
    alloc: Global,
    machine: &mut M,
    keeper: &mut K,
    output: &mut O,
    request: Request,
) -> Result<(), LinkEnd>
    requires { M.stands machine.old keeper.old }
    ensures replied { let before = at machine.old (O.written output.old) (M.faults keeper.old) in
        let after = at machine.new (O.written output.new) (M.faults keeper.new) in
        OnOk result (HasReplied M.answers before request after) }
    ensures stays { OnOk result (request.close ≡ false) }
    ensures ended { let before = at machine.old (O.written output.old) (M.faults keeper.old) in
        let after = at machine.new (O.written output.new) (M.faults keeper.new) in
        IfErr result (EndsByRequest M.answers before request after) }
    ensures write_faults { TellsFault (Err LinkEnd.WriteFault) result (O.faults output.old) (O.faults output.new) }
    ensures stands { M.stands machine.new keeper.new }
    ensures follows { M.follows keeper.old keeper.new }
{
    let close = request.close;
    let answered = machine.respond(alloc, keeper, request);
    match write_response(output, answered, close) {
        Ok(()) if close => Err(LinkEnd::Done),
        Ok(()) => Ok(()),
        Err(Failed) => Err(LinkEnd::WriteFault),
    }
}

/// The bytes of the response to a request that is refused with this status.
fn refusal_response(alloc: Global, status: u16) -> Result<Bytes, OutOfMemory>
    requires { IsTrue (is_answered status) }
    ensures { IfOk result (λ bytes. bytes ≡ response status (refusal status) true) }
{
    let body = refusal_body(alloc, status)?;
    response_bytes(alloc, status, body.as_slice(), true)
}

/// Writes the response to a request that is refused with this status, and says how the link ends: Done, or WriteFault
/// where the output failed, or OutOfMemory.
pub fn refuse<O: Sink>(alloc: Global, output: &mut O, status: u16) -> LinkEnd
    requires { IsTrue (is_answered status) }
    ensures ended { EndsByRefusal (O.written output.old) (O.written output.new) status result }
    ensures write_faults { TellsFault LinkEnd.WriteFault result (O.faults output.old) (O.faults output.new) }
{
    let Ok(bytes) = refusal_response(alloc, status) else {
        return LinkEnd::OutOfMemory;
    };
    match write_all(output, bytes.as_slice()) {
        Ok(()) => LinkEnd::Done,
        Err(Failed) => LinkEnd::WriteFault,
    }
}
