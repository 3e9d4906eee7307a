ghost use Rattle.std.specs.Prelude.{◌≡◌, ◌≤◌, ℕ, List, true, Ok, Err, IfOk, IfErr, OnOk, OnErr, IsTrue};
ghost use Rattle.book_keeper.specs.Faults.{Rose};
ghost use Rattle.book_engine.specs.Acting.{IsChange, IsUnchanged};
ghost use Rattle.book_engine.specs.Books.{machine_kept};
ghost use Rattle.book_engine.specs.Machine.{step};
ghost use Rattle.book_engine.specs.Planned.{HasRoomFor, IsPlanFor, after, commits};
ghost use Rattle.book_engine.specs.Standing.{Stands};
ghost use Rattle.book_texts.specs.AnswerText.{answer_bytes};
ghost use Rattle.book_http.specs.Response.{is_answered, response};
ghost use Rattle.book_serve.specs.Exchange.{IsResponse};
ghost use Rattle.book_app.specs.Machine.{RequestChanges};
ghost use Rattle.book_app.specs.Respond.{IsOutcomeResponse, IsResponseOf, kept_answers};
ghost use Rattle.book_app.specs.Later.{IsLater};

use crate::reply::{Answering, keep};
use book_command::{Command, WireError};
use book_commodity::{Bytes, OutOfMemory, discard};
use book_engine::{Engine, Plan};
use book_http::{Request, response_bytes};
use book_keeper::Keeper;
use book_lines::Unanswered;
use book_requests::command_of_request;
use book_serve::Responder;
use book_step::Refusal;
use book_texts::{answer_text, rule_text, wire_text};
use std::alloc::Global;

/// The response of this status with a text as its body, if there was memory for both.
fn response(
    alloc: Global,
    status: u16,
    text: Result<Bytes, OutOfMemory>,
    close: bool,
) -> Result<Bytes, OutOfMemory>
    requires { IsTrue (is_answered status) }
    ensures { IfOk result (IsResponseOf status text close) }
{
    let text = text?;
    response_bytes(alloc, status, text.as_slice(), close)
}

/// The response to a plan's command.
fn answer_response(alloc: Global, plan: &Plan, close: bool) -> Result<Bytes, OutOfMemory>
    ensures { IfOk result (λ bytes. bytes ≡ response 200 (answer_bytes plan.now.answer plan.now.version) close) }
{
    response(
        alloc,
        200,
        answer_text(alloc, plan.answer(), plan.version()),
        close,
    )
}

/// A response, if there was memory for it.
fn responded(bytes: Result<Bytes, OutOfMemory>) -> Result<Bytes, Unanswered>
    ensures bytes { IfOk result (λ given. bytes ≡ Ok given) }
    ensures memory { IfErr result (λ why. why ≡ Unanswered.Memory) }
{
    match bytes {
        Ok(bytes) => Ok(bytes),
        Err(OutOfMemory) => Err(Unanswered::Memory),
    }
}

/// The response to a plan's command, which is finished. The whole response is made before that.
/// Keeper: the plan commits, and the keeper failed.
fn finished<K: Keeper>(
    alloc: Global,
    engine: &mut Engine,
    keeper: &mut K,
    plan: Plan,
    close: bool,
) -> Result<Bytes, Unanswered>
    requires made { IsPlanFor engine.old.state engine.old.saved plan }
    requires room { HasRoomFor engine.old plan }
    ensures bytes { IfOk result (λ bytes. bytes ≡ response 200 (answer_bytes plan.answer plan.version) close) }
    ensures state { OnOk result (engine.new.state ≡ after engine.old.state plan) }
    ensures kept { OnErr result (IsUnchanged engine.old engine.new) }
    ensures commits { result ≡ Err Unanswered.Keeper → IsTrue (commits plan) }
    ensures failed { result ≡ Err Unanswered.Keeper → Rose (K.faults keeper.old) (K.faults keeper.new) }
    ensures later { K.faults keeper.old ≤ K.faults keeper.new }
    ensures stands { Stands K.Keeper keeper.old engine.old → Stands K.Keeper keeper.new engine.new }
    ensures follows { IsLater K.path_given K.honest K.sure keeper.old keeper.new }
{
    match answer_response(alloc, &plan, close) {
        Ok(bytes) => keep(engine, keeper, plan, bytes),
        Err(OutOfMemory) => Err(discard(plan, Unanswered::Memory)),
    }
}

/// The response to a command.
/// Keeper: the command changes the state, and the keeper failed to keep the change.
fn respond_to_command<K: Keeper>(
    alloc: Global,
    engine: &mut Engine,
    keeper: &mut K,
    command: Command,
    close: bool,
) -> Result<Bytes, Unanswered>
    ensures answered { IfOk result (λ bytes. IsOutcomeResponse (step (machine_kept engine.old) command)
        (machine_kept engine.old) bytes close (machine_kept engine.new)) }
    ensures kept { OnErr result (machine_kept engine.new ≡ machine_kept engine.old) }
    ensures changes { result ≡ Err Unanswered.Keeper
        → IsChange (machine_kept engine.old) (step (machine_kept engine.old) command) }
    ensures failed { result ≡ Err Unanswered.Keeper → Rose (K.faults keeper.old) (K.faults keeper.new) }
    ensures later { K.faults keeper.old ≤ K.faults keeper.new }
    ensures stands { Stands K.Keeper keeper.old engine.old → Stands K.Keeper keeper.new engine.new }
    ensures follows { IsLater K.path_given K.honest K.sure keeper.old keeper.new }
{
    match engine.prepare(command) {
        Ok(plan) => finished(alloc, engine, keeper, plan, close),
        Err(Refusal::Broken(rule)) => responded(response(
            alloc,
            409,
            rule_text(alloc, &rule, engine.version()),
            close,
        )),
        Err(Refusal::Keeper | Refusal::OutOfMemory) => Err(Unanswered::Memory),
    }
}

/// The response to a request, whatever it asks.
/// Keeper: the request changes the state, and the keeper failed to keep the change.
fn respond_to<K: Keeper>(
    alloc: Global,
    engine: &mut Engine,
    keeper: &mut K,
    request: &Request,
) -> Result<Bytes, Unanswered>
    ensures answered { IfOk result (λ bytes. IsResponse kept_answers engine.old request.now bytes engine.new) }
    ensures kept { OnErr result (machine_kept engine.new ≡ machine_kept engine.old) }
    ensures changes { result ≡ Err Unanswered.Keeper → RequestChanges (machine_kept engine.old) request.now }
    ensures failed { result ≡ Err Unanswered.Keeper → Rose (K.faults keeper.old) (K.faults keeper.new) }
    ensures later { K.faults keeper.old ≤ K.faults keeper.new }
    ensures stands { Stands K.Keeper keeper.old engine.old → Stands K.Keeper keeper.new engine.new }
    ensures follows { IsLater K.path_given K.honest K.sure keeper.old keeper.new }
{
    match command_of_request(alloc, request) {
        Ok(command) => respond_to_command(alloc, engine, keeper, command, request.close),
        Err(WireError::OutOfMemory) => Err(Unanswered::Memory),
        Err(fault) => responded(response(alloc, 400, wire_text(alloc, &fault), request.close)),
    }
}

impl<K: Keeper> Responder<Answering, K> for Engine {
    ghost use Rattle.std.specs.Prelude.{ℕ, refl};
    ghost use Rattle.book_engine.specs.Books.{machine_kept};
    ghost use Rattle.book_engine.specs.Standing.{Stands};
    ghost use Rattle.book_app.specs.Respond.{kept_answers};
    ghost use Rattle.book_app.specs.Later.{IsLater, same_later, twice_later};

    ghost answers = { kept_answers };

    ghost stands = { λ engine keeper. Stands K.Keeper keeper engine };

    ghost follows = { λ old new. IsLater K.path_given K.honest K.sure old new };

    ghost faults = { λ keeper. K.faults keeper };

    ghost follows_itself = { λ keeper. same_later K.path_given K.honest K.sure keeper };

    ghost follows_through = { λ first second third one other.
        twice_later K.path_given K.honest K.sure first second third one other };

    fn respond(
        &mut self,
        alloc: Global,
        keeper: &mut K,
        request: Request,
    ) -> Result<Bytes, Unanswered> {
        respond_to(alloc, self, keeper, &request)
    }
}
