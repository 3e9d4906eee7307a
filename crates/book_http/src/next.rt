ghost use Rattle.std.specs.Prelude.{◌≡◌, ◌≢◌, ◌<◌, ◌≤◌, ◌+◌, ℕ, List, Option, length, Ok, Err, true, false, IfOk};
ghost use Rattle.std.specs.Prelude.{OnErr};
ghost use Rattle.std.specs.Io.KnownBytes.{IsAtEnd};
ghost use Rattle.book_keeper.specs.Faults.{Rose};
ghost use Rattle.book_http.specs.Exchange.{IsNext, LacksHead, NextIs};
ghost use Rattle.book_http.specs.Judgement.{BeginsAccepted, IsEnded, IsJudged};
ghost use Rattle.book_http.specs.Reading.{HasRead};

use crate::head::judge;
use crate::inbox::Inbox;
use crate::judgement::{AcceptedHead, Judgement};
use crate::route::Route;
use crate::routes::Routes;
use book_commodity::{Bytes, OutOfMemory, discard};
use book_keeper::Source;
use std::alloc::{AllocError, Global};

/// A request of a link.
#[derive(Drop)]
pub struct Request {
    pub route: Route,
    /// The body of a command; for the other routes it has no bytes.
    pub body: Bytes,
    /// Whether the link closes after the answer.
    pub close: bool,
}

/// What comes next of a link.
#[derive(Drop)]
pub enum Next {
    Request(Request),
    /// The next request is refused with this status, and the link closes.
    Refused(u16),
    /// The link has ended, and all its bytes were used.
    End,
    /// The link has ended within a request.
    Cut,
}

/// Why nothing came of a link: it could not be read, and its count of faults rose; or memory ran out.
#[derive(Clone, Copy, Debug, PartialEq, Eq)]
pub enum NextError {
    ReadFault,
    OutOfMemory,
}

impl From<OutOfMemory> for NextError {
    ghost use Rattle.std.specs.Prelude.{◌≡◌};
    ghost use Rattle.book_http.specs.declared.next.NextError.TheVariants.{OutOfMemory as NoMemory};

    ghost from_gives = { λ _ error. error ≡ NoMemory };

    fn from(_error: OutOfMemory) -> NextError {
        NextError::OutOfMemory
    }
}

impl From<AllocError> for NextError {
    ghost use Rattle.std.specs.Prelude.{◌≡◌};
    ghost use Rattle.book_http.specs.declared.next.NextError.TheVariants.{OutOfMemory as NoMemory};

    ghost from_gives = { λ _ error. error ≡ NoMemory };

    fn from(_error: AllocError) -> NextError {
        NextError::OutOfMemory
    }
}

/// Reads the link until the head of the next request is judged, or the link ends: then the head is unfinished.
fn await_head<S: Source>(
    alloc: Global,
    routes: &Routes,
    inbox: &mut Inbox,
    link: &mut S,
) -> Result<Judgement, NextError>
    ensures read { HasRead inbox.old inbox.new (S.left link.old) (S.left link.new) }
    ensures judged { IfOk result (IsJudged inbox.new) }
    ensures ended { IfOk result (IsEnded (S.left link.new)) }
    ensures unfinished { result ≡ Err NextError.ReadFault → LacksHead inbox.new }
    ensures fault { result ≡ Err NextError.ReadFault → Rose (S.faults link.old) (S.faults link.new) }
    ensures no_fault { result ≢ Err NextError.ReadFault → S.faults link.new ≡ S.faults link.old }
{
    'pieces: loop {
        match judge(alloc, routes, inbox.as_slice())? {
            Judgement::Unfinished => {}
            judgement => return Ok(judgement),
        }
        if inbox.fill(link)? == 0 {
            return Ok(Judgement::Unfinished);
        }
    }
}

/// Reads the link until the inbox has so many bytes, and says whether it has: not where the link ends before.
fn await_bytes<S: Source>(inbox: &mut Inbox, link: &mut S, wanted: usize) -> Result<bool, NextError>
    ensures read { HasRead inbox.old inbox.new (S.left link.old) (S.left link.new) }
    ensures all { result ≡ Ok true → wanted ≤ length inbox.new }
    ensures ended { result ≡ Ok false → (length inbox.new < wanted) × IsAtEnd (S.left link.new) }
    ensures unfinished { OnErr result (length inbox.new < wanted) }
    ensures fault { result ≡ Err NextError.ReadFault → Rose (S.faults link.old) (S.faults link.new) }
    ensures no_fault { result ≢ Err NextError.ReadFault → S.faults link.new ≡ S.faults link.old }
{
    'pieces: while inbox.as_slice().len() < wanted {
        if inbox.fill(link)? == 0 {
            return Ok(false);
        }
    }
    Ok(true)
}

/// Takes the request of an accepted head whose body has come from the inbox.
fn take_whole(alloc: Global, inbox: &mut Inbox, accepted: AcceptedHead) -> Result<Next, NextError>
    requires begun { BeginsAccepted inbox.old accepted }
    requires whole { accepted.head + accepted.body ≤ length inbox.old }
    ensures next { (after : Option (List ℕ)) → NextIs inbox.old inbox.new after result }
    ensures quiet { result ≢ Err NextError.ReadFault }
{
    let wanted = accepted.route.kind().takes_body();
    match inbox.take(alloc, accepted.head, accepted.body, wanted) {
        Ok(body) => {
            let AcceptedHead { route, close, .. } = accepted;
            Ok(Next::Request(Request { route, body, close }))
        }
        Err(OutOfMemory) => Err(discard(accepted, NextError::OutOfMemory)),
    }
}

/// Reads the body behind an accepted head, and takes the request from the inbox.
fn take_request<S: Source>(
    alloc: Global,
    inbox: &mut Inbox,
    link: &mut S,
    accepted: AcceptedHead,
) -> Result<Next, NextError>
    requires { BeginsAccepted inbox.old accepted }
    ensures next { IsNext inbox.old inbox.new (S.left link.old) (S.left link.new) result }
    ensures fault { result ≡ Err NextError.ReadFault → Rose (S.faults link.old) (S.faults link.new) }
    ensures no_fault { result ≢ Err NextError.ReadFault → S.faults link.new ≡ S.faults link.old }
{
    match await_bytes(inbox, link, accepted.head + accepted.body) {
        Ok(true) => take_whole(alloc, inbox, accepted),
        Ok(false) => Ok(discard(accepted, Next::Cut)),
        Err(error) => Err(discard(accepted, error)),
    }
}

/// Takes the next request of the link: from the inbox as far as its bytes reach, and then from what is read of the
/// link. Bytes that were read and not used stay in the inbox, whatever the answer.
/// End: the link has ended and the inbox is empty. Cut: the link has ended, and what stands in the inbox is neither a
/// whole request nor refused.
/// ReadFault: the link could not be read, and its count of faults rose; what stands in the inbox is neither a whole
/// request nor refused.
pub fn next_request<S: Source>(
    alloc: Global,
    routes: &Routes,
    inbox: &mut Inbox,
    link: &mut S,
) -> Result<Next, NextError>
    ensures next { IsNext inbox.old inbox.new (S.left link.old) (S.left link.new) result }
    ensures fault { result ≡ Err NextError.ReadFault → Rose (S.faults link.old) (S.faults link.new) }
    ensures no_fault { result ≢ Err NextError.ReadFault → S.faults link.new ≡ S.faults link.old }
{
    match await_head(alloc, routes, inbox, link) {
        Ok(Judgement::Unfinished) if inbox.as_slice().is_empty() => Ok(Next::End),
        Ok(Judgement::Unfinished) => Ok(Next::Cut),
        Ok(Judgement::Refused(status)) => Ok(Next::Refused(status)),
        Ok(Judgement::Accepted(accepted)) => take_request(alloc, inbox, link, accepted),
        Err(error) => Err(error),
    }
}
