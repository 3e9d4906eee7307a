//! The requests of a link and the responses to them, as HTTP/1.x writes them.
//! `next_request` takes the next request from the bytes of a link, whatever the pieces in which they come: its head is
//! read by the kit's `httparse`, its route found by `matchit`, its body cut by its length. `response_bytes` makes the
//! bytes of a response, and `refusal_body` the body with which a refused request is answered.
//! What a body says, and which status answers a command, is not known here.
#![tactic(auto)]

mod fields;
mod head;
mod inbox;
mod judgement;
mod next;
mod response;
mod route;
mod routes;

pub use inbox::Inbox;
pub use next::{Next, NextError, Request, next_request};
pub use response::{refusal_body, response_bytes};
pub use route::Route;
pub use routes::Routes;
