ghost use Rattle.std.specs.Prelude.{◌≡◌, ◌==◌, ◌||◌, ℕ, ◌*◌, ◌^◌, ◌<◌, ◌≤◌, List, length, Some, IfOk, IsUtf8};
ghost use Rattle.httparse.specs.Grammar.{RequestHead};
ghost use Rattle.httparse.specs.Spans.{span_bytes, IsRequestAt, IsRequestWithin};
ghost use Rattle.book_commodity.specs.Rules.{ReportsFirst};
ghost use Rattle.book_http.specs.Head.{field_refusals, route_refusals, has_method, size_of};
ghost use Rattle.book_http.specs.Exchange.{head_window};
ghost use Rattle.book_http.specs.Judgement.{IsJudged, IsJudgedHead};

use crate::fields::{BodyLength, Fields, read_fields};
use crate::judgement::{AcceptedHead, Judgement};
use crate::route::Route;
use crate::routes::Routes;
use book_commodity::{OutOfMemory, discard};
use httparse::spans::{EMPTY_HEADER_SPAN, HeaderSpan, RequestSpans, parse_request};
use httparse::{Error, Status};
use std::alloc::Global;

/// How many bytes a head has at most: 16 KiB.
pub const MAX_HEAD: usize = 16_384;

/// How many fields a head has at most.
const MAX_FIELDS: usize = 64;

/// How many bytes a body has at most: 8 MiB.
const MAX_BODY: u64 = 8_388_608;

/// The size of the body, or the first status with which the fields refuse the head.
fn refuse_by_fields(count: usize, fields: &Fields) -> Result<usize, u16>
    ensures refused { ReportsFirst (field_refusals count fields.now) result }
    ensures size { IfOk result (λ size. size ≡ size_of fields.now.length) }
    ensures few { IfOk result (λ size. size ≤ 2 ^ 23) }
{
    if count > MAX_FIELDS {
        return Err(431);
    }
    if fields.encoded {
        return Err(501);
    }
    match fields.length {
        BodyLength::Absent => Ok(0),
        BodyLength::Given(size) if size > MAX_BODY => Err(413),
        BodyLength::Given(size) => Ok(size as usize),
        BodyLength::Broken => Err(400),
    }
}

/// Whether this is the method of the route.
fn has_method(method: &[u8], route: &Route) -> bool
    ensures { result ≡ has_method method.now route.now }
{
    let wanted = if route.kind().takes_body() {
        "POST"
    } else {
        "GET"
    };
    method == wanted.as_bytes()
}

/// The first status with which the route refuses the head.
fn refuse_by_route(method: &[u8], length: BodyLength, route: &Route) -> Result<(), u16>
    ensures { ReportsFirst (route_refusals method.now length (Some route.now)) result }
{
    if !has_method(method, route) {
        return Err(405);
    }
    if route.kind().takes_body() && length == BodyLength::Absent {
        return Err(411);
    }
    Ok(())
}

/// Whether the link closes after the answer to a request of this version with these fields.
fn closes(version: u8, fields: &Fields) -> bool
    ensures { result ≡ ((version == 0) || fields.now.close) }
{
    version == 0 || fields.close
}

/// Judges a head whose parts stand here in the window.
fn judge_head(
    alloc: Global,
    routes: &Routes,
    window: &[u8],
    spans: &[HeaderSpan],
    found: &RequestSpans,
) -> Result<Judgement, OutOfMemory>
    requires within { IsRequestWithin window.now spans.now found.now }
    requires text { IsUtf8 (span_bytes window.now found.now.path) }
    ensures { IfOk result (λ judgement. (head : RequestHead) → IsRequestAt window.now spans.now found.now head
        → IsJudgedHead head found.now.len judgement) }
{
    let fields = read_fields(window, &spans[..found.headers]);
    let body = match refuse_by_fields(found.headers, &fields) {
        Ok(body) => body,
        Err(status) => return Ok(Judgement::Refused(status)),
    };
    let Some(route) = routes.find(alloc, found.path.of(window))? else {
        return Ok(Judgement::Refused(404));
    };
    match refuse_by_route(found.method.of(window), fields.length, &route) {
        Ok(()) => Ok(Judgement::Accepted(AcceptedHead {
            route,
            head: found.len,
            body,
            close: closes(found.version, &fields),
        })),
        Err(status) => Ok(discard(route, Judgement::Refused(status))),
    }
}

/// Judges the head that the window begins with, with room for the spans of all fields that the window can have.
fn judge_window(
    alloc: Global,
    routes: &Routes,
    window: &[u8],
    spans: &mut [HeaderSpan],
) -> Result<Judgement, OutOfMemory>
    requires { length window.now < 3 * length spans.old }
    ensures { IfOk result (λ judgement. (bytes : List ℕ) → window.now ≡ head_window bytes → IsJudged bytes judgement) }
{
    match parse_request(window, spans) {
        Ok(Status::Complete(found)) => judge_head(alloc, routes, window, spans, &found),
        Ok(Status::Partial) if window.len() < MAX_HEAD => Ok(Judgement::Unfinished),
        Ok(Status::Partial) => Ok(Judgement::Refused(431)),
        Err(Error::TooManyHeaders) => unreachable!(),
        Err(_) => Ok(Judgement::Refused(400)),
    }
}

/// The bytes in which a head has to end: the first 16 KiB.
fn window_of(bytes: &[u8]) -> &[u8]
    ensures { result.now ≡ head_window bytes.now }
{
    &bytes[..bytes.len().min(MAX_HEAD)]
}

/// Judges the head that the bytes begin with, of which the first 16 KiB are looked at.
pub fn judge(alloc: Global, routes: &Routes, bytes: &[u8]) -> Result<Judgement, OutOfMemory>
    ensures { IfOk result (IsJudged bytes.now) }
{
    let window = window_of(bytes);
    let mut spans = vec![in alloc; EMPTY_HEADER_SPAN; window.len() / 3 + 1]?;
    judge_window(alloc, routes, window, &mut spans)
}
