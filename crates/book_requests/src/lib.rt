//! What the requests of a link ask: the body of one is a command line, whatever its bytes are, and the target of
//! another asks what the line of its word with its parameters asks. Public is `command_of_request`. Nothing here knows
//! the book or the link.
#![tactic(auto)]

mod request;
mod targets;

pub use request::command_of_request;
