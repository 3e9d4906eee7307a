ghost use Rattle.book_json.specs.Line.{IsObjectOf};

use crate::Reading;
use serde_json::Value;
use std::alloc::Global;

/// Why a line was not read as an object.
#[derive(Clone, Copy, Debug, PartialEq, Eq)]
pub enum NotRead {
    /// It is not in UTF-8, no JSON text, or nested more than 127 deep.
    NotJson,
    /// It is JSON, but no object.
    NotObject,
    /// Out of memory.
    OutOfMemory,
}

/// The members of the object that the line is, without its line feed; of equal keys the last counts.
pub fn object_of(alloc: Global, line: &[u8]) -> Result<Reading, NotRead>
    ensures { IsObjectOf line.now result }
{
    let value = match Value::from_slice(alloc, line) {
        Ok(value) => value,
        Err(error) if error.is_memory() => return Err(NotRead::OutOfMemory),
        Err(_) => return Err(NotRead::NotJson),
    };
    let Value::Object(members) = value else {
        return Err(NotRead::NotObject);
    };
    Ok(Reading::of(alloc, members))
}
