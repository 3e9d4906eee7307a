ghost use Rattle.std.specs.Prelude.{◌≡◌, ℕ, List, Result, IfOk};
ghost use Rattle.serde_json.specs.Data.{Members};
ghost use Rattle.serde_json.specs.View.{view};
ghost use Rattle.book_json.specs.Forms.{inner, list};
ghost use Rattle.book_json.specs.Reads.{rest, Gives};

use crate::{Fault, Reading};
use book_commodity::{Many, OutOfMemory};
use serde_json::Value;
use std::alloc::Global;

/// A table of members, and the type of what they stand for together.
pub trait Object {
    /// What the members stand for.
    type Value: Drop;

    /// The reader of the members, in their order.
    ghost reader: { Members → Result (Self.Value × Members) (List ℕ) };

    /// Takes the members away; the first that fails is the fault. Members that it does not ask for are left.
    fn read(members: &mut Reading) -> Result<Self::Value, Fault>
        ensures { Gives (reader (rest members.old)) result (rest members.new) };
}

/// What an object inside stands for, read to its end; `None` where the data is no object, a member of it fails or one
/// is left. The only error is out of memory.
pub(crate) fn inner<O: Object>(alloc: Global, value: Value) -> Result<Option<O::Value>, OutOfMemory>
    ensures { IfOk result (λ read. read ≡ inner O.reader (view value)) }
{
    let Value::Object(members) = value else {
        return Ok(None);
    };
    match Reading::of(alloc, members).whole::<O>() {
        Ok(object) => Ok(Some(object)),
        Err(Fault::Member(_)) => Ok(None),
        Err(Fault::OutOfMemory) => Err(OutOfMemory),
    }
}

/// What the objects of a list stand for, each read to its end; `None` where the data is no list, or an item of it is
/// of another form. The only error is out of memory.
pub(crate) fn list<O: Object>(
    alloc: Global,
    value: Value,
) -> Result<Option<Many<O::Value>>, OutOfMemory>
    ensures { IfOk result (λ read. read ≡ list (inner O.reader) (view value)) }
{
    let Value::Array(items) = value else {
        return Ok(None);
    };
    let mut list = Many::new(alloc);
    for item in items {
        let Some(object) = inner::<O>(alloc, item)? else {
            return Ok(None);
        };
        list.push(object)?;
    }
    Ok(Some(list))
}
