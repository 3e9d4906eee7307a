use book_commodity::{Bytes, OutOfMemory};
use book_http::{Request, response_bytes};
use book_lines::Unanswered;
use book_serve::Responder;
use std::alloc::Global;

/// A machine that answers each request with the request's own body, and keeps nothing.
#[derive(Drop)]
pub struct Echo;

impl Responder<(), ()> for Echo {
    ghost use Rattle.std.specs.Prelude.{ℕ, ⊤};
    ghost use Rattle.loopback_case.specs.Echo.{Echoes};

    ghost answers = { λ _ request mark status body _. Echoes request mark status body };

    ghost stands = { λ _ _. ⊤ };

    ghost follows = { λ _ _. ⊤ };

    ghost faults = { λ _. 0 };

    ghost follows_itself = { λ _. tt };

    ghost follows_through = { λ _ _ _ _ _. tt };

    fn respond(
        &mut self,
        alloc: Global,
        _keeper: &mut (),
        request: Request,
    ) -> Result<Bytes, Unanswered> {
        match response_bytes(alloc, 200, request.body.as_slice(), request.close) {
            Ok(bytes) => Ok(bytes),
            Err(OutOfMemory) => Err(Unanswered::Memory),
        }
    }
}
