ghost use Rattle.std.specs.Prelude.{◌≡◌, ◌++◌, IfOk};

use book_commodity::{OutOfMemory, Text};
use std::alloc::Global;
use std::mem;

/// An equal text.
pub fn copy_of(alloc: Global, text: &str) -> Result<Text, OutOfMemory>
    ensures { IfOk result (λ copy. copy ≡ text.now) }
{
    Ok(Text::of(String::from_str(alloc, text)?))
}

/// Adds a text at the end of another.
pub fn append(alloc: Global, text: &mut Text, more: &str) -> Result<(), OutOfMemory>
    ensures { IfOk result (λ _. text.new ≡ text.old ++ more.now) }
{
    let mut string = mem::replace(text, Text::new(alloc)).into_string();
    string.push_str(more)?;
    *text = Text::of(string);
    Ok(())
}
