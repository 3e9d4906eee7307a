ghost use Rattle.std.specs.Prelude.{◌≡◌, List, ℕ, ◌++◌, ◌<◌, ◌^◌, length, IfOk};
ghost use Rattle.std.specs.Str.{IsUtf8};
ghost use Rattle.book_codec.specs.Read.{Gives};
ghost use Rattle.book_codec.specs.Words.{string};

use crate::{DecodeError, Field};
use book_commodity::{OutOfMemory, Text};
use std::alloc::Global;
use std::str;

/// A text: the number of its bytes and then its bytes, which are UTF-8.
impl<W> Field<W> for Text {
    ghost fits = { λ bytes. IsUtf8 bytes × (length bytes < 2 ^ 64) };

    ghost spelling = { string };

    #[tactic(auto, unfolding(crate::specs::Words::string))]
    fn spell(&self, out: &mut Vec<u8>) -> Result<(), OutOfMemory> {
        let text = self.as_str();
        let count = text.len() as u64;
        Field::<W>::spell(&count, out)?;
        out.extend_from_slice(text.as_bytes())?;
        Ok(())
    }

    #[tactic(auto, unfolding(crate::specs::Words::string))]
    fn read(alloc: Global, bytes: &[u8]) -> Result<(Text, &[u8]), DecodeError> {
        let (count, rest) = match <u64 as Field<W>>::read(alloc, bytes) {
            Ok(found) => found,
            Err(error) => return Err(error),
        };
        if count > rest.len() as u64 {
            return Err(DecodeError::Bad);
        }
        let count = count as usize;
        match text_of(alloc, &rest[..count]) {
            Ok(text) => Ok((text, &rest[count..])),
            Err(error) => Err(error),
        }
    }
}

/// The text of bytes in UTF-8.
/// Bad: they are not UTF-8.
fn text_of(alloc: Global, bytes: &[u8]) -> Result<Text, DecodeError>
    ensures found { IfOk result (λ text. text ≡ bytes.now) }
    ensures utf8 { IfOk result IsUtf8 }
    ensures again { IsUtf8 bytes.now → Gives (λ text. text) result bytes.now }
{
    let Ok(text) = str::from_utf8(bytes) else {
        return Err(DecodeError::Bad);
    };
    let mut string = String::new(alloc);
    match string.push_str(text) {
        Ok(()) => Ok(Text::of(string)),
        Err(_) => Err(DecodeError::OutOfMemory),
    }
}
