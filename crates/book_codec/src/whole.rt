ghost use Rattle.std.specs.Prelude.{◌≡◌, ◌∷◌, IfOk, MatchOption, List, ℕ};
ghost use Rattle.book_codec.specs.Read.{Gives};

use crate::{DecodeError, Field};
use book_commodity::{Bytes, OutOfMemory};
use std::alloc::Global;

/// The body of a value: the byte of its format and then its spelling.
pub fn write_whole<W, T: Field<W>>(
    alloc: Global,
    format: u8,
    value: &T,
) -> Result<Bytes, OutOfMemory>
    ensures spelled { IfOk result (λ body. body ≡ format ∷ T.spelling value.now) }
    ensures fits { IfOk result (λ body. T.fits value.now) }
{
    let mut out = Vec::new(alloc);
    out.push(format)?;
    value.spell(&mut out)?;
    Ok(Bytes::of(out))
}

/// The value whose body in this format these bytes are.
/// Bad: they are no value's body in this format.
pub fn read_whole<W, T: Field<W>>(alloc: Global, format: u8, body: &[u8]) -> Result<T, DecodeError>
    ensures found { IfOk result (λ value. body.now ≡ format ∷ T.spelling value) }
    ensures fits { IfOk result T.fits }
    ensures again { (value : T) → T.fits value → body.now ≡ format ∷ T.spelling value → Gives (λ x. x) result value }
{
    match behind_format(format, body) {
        Some(rest) => read_to_end::<W, T>(alloc, rest),
        None => Err(DecodeError::Bad),
    }
}

/// The bytes behind the byte of the format; None where the first byte is another.
pub fn behind_format(format: u8, body: &[u8]) -> Option<&[u8]>
    ensures { MatchOption result ((rest : List ℕ) → body.now ≡ format ∷ rest → ⊥)
        (λ rest. body.now ≡ format ∷ rest.now) }
{
    match body {
        [first, rest @ ..] if *first == format => Some(rest),
        _ => None,
    }
}

/// The value that all the bytes spell.
/// Bad: they spell none, or bytes are left behind it.
fn read_to_end<W, T: Field<W>>(alloc: Global, bytes: &[u8]) -> Result<T, DecodeError>
    ensures found { IfOk result (λ value. bytes.now ≡ T.spelling value) }
    ensures fits { IfOk result T.fits }
    ensures again { (value : T) → T.fits value → bytes.now ≡ T.spelling value → Gives (λ x. x) result value }
{
    let (value, left) = match T::read(alloc, bytes) {
        Ok(found) => found,
        Err(error) => return Err(error),
    };
    if !left.is_empty() {
        return Err(DecodeError::Bad);
    }
    Ok(value)
}
