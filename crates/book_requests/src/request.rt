ghost use Rattle.book_requests.specs.Requests.{IsRequestRead};

use crate::targets::{income, lots, register, sheet, status, trial};
use book_command::{Command, WireError};
use book_http::{Request, Route};
use book_wire::command_of;
use std::alloc::Global;

/// What a request asks. An error says why it asks for no command, or that there was no memory.
pub fn command_of_request(alloc: Global, request: &Request) -> Result<Command, WireError>
    ensures { IsRequestRead request.now result }
{
    match &request.route {
        Route::Command => command_of(alloc, request.body.as_slice()),
        Route::Status => Ok(status()),
        Route::Trial(day) => trial(alloc, day.as_str()),
        Route::Sheet(day) => sheet(alloc, day.as_str()),
        Route::Income(from, to) => income(alloc, from.as_str(), to.as_str()),
        Route::Register(account) => register(alloc, account.as_str()),
        Route::Lots(account) => lots(alloc, account.as_str()),
    }
}
