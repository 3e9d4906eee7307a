ghost use Rattle.std.specs.Prelude.{◌≡◌, IfSome};
ghost use Rattle.book_json.specs.Reads.{rest};
ghost use Rattle.book_wire.specs.Asked.{asked_of_members, asked_of_result, error_of_fault, IsRead};

use crate::commands::command;
use book_command::{Command, WireError};
use book_commodity::Text;
use book_json::{Fault, NotRead, Reading, object_of};
use std::alloc::Global;

/// What the line asks, without its line feed. An error says why it is no command, or that there was no memory.
pub fn command_of(alloc: Global, line: &[u8]) -> Result<Command, WireError>
    ensures { IsRead line.now result }
{
    match object_of(alloc, line) {
        Ok(members) => command_of_members(members),
        Err(NotRead::NotJson) => Err(WireError::NotJson),
        Err(NotRead::NotObject) => Err(WireError::NotCommand {
            field: Text::new(alloc),
        }),
        Err(NotRead::OutOfMemory) => Err(WireError::OutOfMemory),
    }
}

/// What the members of a line ask.
fn command_of_members(mut members: Reading) -> Result<Command, WireError>
    ensures { IfSome (asked_of_result result) (λ asked. asked_of_members (rest members) ≡ asked) }
{
    match command(&mut members) {
        Ok(command) => Ok(command),
        Err(fault) => Err(error_of(fault)),
    }
}

/// Why a line is no command, where a member of it fails.
fn error_of(fault: Fault) -> WireError
    ensures { result ≡ error_of_fault fault }
{
    match fault {
        Fault::Member(field) => WireError::NotCommand { field },
        Fault::OutOfMemory => WireError::OutOfMemory,
    }
}
