//! The requests of a link are answered one after the other, and links one after the other: a machine answers each
//! request, and the responses are written to its link. It knows no command and no response but the two for a request
//! that the machine could not answer; what was written for which requests is a clause of `serve_link` over the
//! machine's own meaning of an answer, and `serve` says the same of each link that ports give.
//! Public are `serve_link` with its `LinkEnd`, `serve` with its `ServeEnd`, and the trait `Responder`.
#![tactic(auto)]

mod answer;
mod link_end;
mod links;
mod responder;
mod serve_end;
mod serving;

pub use link_end::LinkEnd;
pub use links::serve;
pub use responder::Responder;
pub use serve_end::ServeEnd;
pub use serving::serve_link;
