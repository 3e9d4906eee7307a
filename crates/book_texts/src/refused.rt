ghost use Rattle.std.specs.Prelude.{◌≡◌, [], ◌∷◌, codes, Some, IfOk};
ghost use Rattle.serde_json.specs.Data.{string};
ghost use Rattle.book_texts.specs.Fields.{line_of, refused as refused_members};
ghost use Rattle.book_texts.specs.RefusedText.{fault_bytes, too_long_bytes};

use crate::fields::Fields;
use book_command::WireError;
use book_commodity::{Bytes, OutOfMemory};
use std::alloc::Global;

/// The line that answers a line which is no command, without its line feed. The only error is out of memory, now or
/// when the line was read.
#[tactic(auto, unfolding(crate::specs::RefusedText::fault_bytes))]
pub fn wire_text(alloc: Global, fault: &WireError) -> Result<Bytes, OutOfMemory>
    ensures { IfOk result (λ text. fault_bytes fault.now ≡ Some text) }
{
    match fault {
        WireError::NotJson => refused(alloc, "not json"),
        WireError::NotCommand { field } => not_command(alloc, field.as_str()),
        WireError::OutOfMemory => Err(OutOfMemory),
    }
}

/// The line that answers a line of so many bytes, which is too long. The only error is out of memory.
#[tactic(auto, unfolding(crate::specs::RefusedText::too_long_bytes))]
pub fn too_long_text(alloc: Global, length: u64) -> Result<Bytes, OutOfMemory>
    ensures { IfOk result (λ text. text ≡ too_long_bytes length) }
{
    let fields = Fields::refused(alloc, "too long")?;
    Ok(fields.with("length", &length)?.line()?)
}

/// A line that is refused for this cause, with no field.
fn refused(alloc: Global, cause: &str) -> Result<Bytes, OutOfMemory>
    ensures { IfOk result (λ text. text ≡ line_of (refused_members cause.now [])) }
{
    Fields::refused(alloc, cause)?.line()
}

/// A line in which the member of this name fails.
fn not_command(alloc: Global, field: &str) -> Result<Bytes, OutOfMemory>
    ensures { IfOk result (λ text. text
        ≡ line_of (refused_members (codes "not command") ((codes "field", string field.now) ∷ []))) }
{
    let fields = Fields::refused(alloc, "not command")?;
    fields.with_text("field", field)?.line()
}
