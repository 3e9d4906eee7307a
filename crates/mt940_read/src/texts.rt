ghost use Rattle.std.specs.Prelude.{◌≡◌, IfOk, IsTrue};
ghost use Rattle.std.specs.Str.{IsAscii};

use book_commodity::{OutOfMemory, Text};
use std::alloc::Global;

/// A text of its own with these bytes, which are ASCII.
pub fn ascii_text(alloc: Global, bytes: &[u8]) -> Result<Text, OutOfMemory>
    requires { IsAscii bytes.now }
    ensures { IfOk result (λ text. text ≡ bytes.now) }
{
    let Ok(text) = str::from_utf8(bytes) else {
        unreachable!()
    };
    text_of(alloc, text)
}

/// A text of its own.
pub fn text_of(alloc: Global, text: &str) -> Result<Text, OutOfMemory>
    ensures { IfOk result (λ copy. copy ≡ text.now) }
{
    Ok(Text::of(String::from_str(alloc, text)?))
}
