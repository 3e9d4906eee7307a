ghost use Rattle.std.specs.Prelude.{◌≡◌, ◌↔◌, IsTrue};
ghost use Rattle.std.specs.IoError.{error_kind};

use std::io::{Error, ErrorKind};

/// How many times a call of std is made in all while each is interrupted; the last interruption is a fault.
pub const TRIES: u32 = 1_000_000;

/// Whether the call was interrupted before it did anything, and is to be made again.
pub fn is_interrupted(error: &Error) -> bool
    ensures { IsTrue result ↔ (error_kind error.now ≡ ErrorKind.Interrupted) }
{
    error.kind() == ErrorKind::Interrupted
}
