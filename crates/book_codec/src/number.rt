ghost use Rattle.std.specs.Prelude.{◌≡◌, FitsSigned, ℕ, ℤ, ◌/◌, ◌%◌, ◌^◌, ◌<◌, List, ◌++◌};
ghost use Rattle.std.specs.Int.{w64, w128, cast_unsigned};
ghost use Rattle.book_codec.specs.Read.{Gives};
ghost use Rattle.book_codec.specs.Words.{number, signed, wide};

use crate::{DecodeError, Field};
use book_commodity::OutOfMemory;
use std::alloc::Global;

/// A number: eight bytes, the most significant first.
impl<W> Field<W> for u64 {
    ghost fits = { λ n. n < 2 ^ 64 };

    ghost spelling = { number };

    #[tactic(auto, unfolding(crate::specs::Words::number))]
    fn spell(&self, out: &mut Vec<u8>) -> Result<(), OutOfMemory> {
        out.extend_from_slice(&self.to_be_bytes())?;
        Ok(())
    }

    #[tactic(auto, unfolding(crate::specs::Words::number))]
    fn read(_alloc: Global, bytes: &[u8]) -> Result<(u64, &[u8]), DecodeError> {
        let [a, b, c, d, e, f, g, h, rest @ ..] = bytes else {
            return Err(DecodeError::Bad);
        };
        Ok((u64::from_be_bytes([*a, *b, *c, *d, *e, *f, *g, *h]), rest))
    }
}

/// A number of 32 bits: spelled as a number of 64 bits.
impl<W> Field<W> for u32 {
    ghost fits = { λ n. n < 2 ^ 32 };

    ghost spelling = { number };

    fn spell(&self, out: &mut Vec<u8>) -> Result<(), OutOfMemory> {
        Field::<W>::spell(&(*self as u64), out)
    }

    fn read(alloc: Global, bytes: &[u8]) -> Result<(u32, &[u8]), DecodeError> {
        let (number, rest) = match <u64 as Field<W>>::read(alloc, bytes) {
            Ok(found) => found,
            Err(error) => return Err(error),
        };
        if number > 0xffff_ffff {
            return Err(DecodeError::Bad);
        }
        Ok((number as u32, rest))
    }
}

/// A signed number: eight bytes in two's complement, the most significant first.
impl<W> Field<W> for i64 {
    ghost fits = { FitsSigned w64 };

    ghost spelling = { signed };

    #[tactic(auto, unfolding(crate::specs::Words::signed))]
    fn spell(&self, out: &mut Vec<u8>) -> Result<(), OutOfMemory> {
        out.extend_from_slice(&self.to_be_bytes())?;
        Ok(())
    }

    #[tactic(auto, unfolding(crate::specs::Words::signed))]
    fn read(_alloc: Global, bytes: &[u8]) -> Result<(i64, &[u8]), DecodeError> {
        let [a, b, c, d, e, f, g, h, rest @ ..] = bytes else {
            return Err(DecodeError::Bad);
        };
        Ok((i64::from_be_bytes([*a, *b, *c, *d, *e, *f, *g, *h]), rest))
    }
}

/// A wide signed number: sixteen bytes in two's complement, the most significant first.
impl<W> Field<W> for i128 {
    ghost fits = { FitsSigned w128 };

    ghost spelling = { wide };

    #[tactic(auto, unfolding(crate::specs::Words::wide))]
    fn spell(&self, out: &mut Vec<u8>) -> Result<(), OutOfMemory> {
        let bits = self.cast_unsigned();
        Field::<W>::spell(&upper_half(bits), out)?;
        Field::<W>::spell(&lower_half(bits), out)
    }

    #[tactic(auto, unfolding(crate::specs::Words::wide))]
    fn read(alloc: Global, bytes: &[u8]) -> Result<(i128, &[u8]), DecodeError> {
        let ((upper, lower), rest) = match <(u64, u64) as Field<W>>::read(alloc, bytes) {
            Ok(found) => found,
            Err(error) => return Err(error),
        };
        Ok((joined(upper, lower), rest))
    }
}

/// The upper 64 of 128 bits.
fn upper_half(bits: u128) -> u64
    ensures { result ≡ bits / 2 ^ 64 }
{
    (bits / 0x1_0000_0000_0000_0000) as u64
}

/// The lower 64 of 128 bits.
fn lower_half(bits: u128) -> u64
    ensures { result ≡ bits % 2 ^ 64 }
{
    (bits % 0x1_0000_0000_0000_0000) as u64
}

/// The signed number of 128 bits whose halves these are.
fn joined(upper: u64, lower: u64) -> i128
    ensures fits { FitsSigned w128 result }
    ensures upper { cast_unsigned w128 result / 2 ^ 64 ≡ upper }
    ensures lower { cast_unsigned w128 result % 2 ^ 64 ≡ lower }
    ensures same { (z : ℤ) → FitsSigned w128 z → cast_unsigned w128 z / 2 ^ 64 ≡ upper
        → cast_unsigned w128 z % 2 ^ 64 ≡ lower → result ≡ z }
{
    (upper as u128 * 0x1_0000_0000_0000_0000 + lower as u128).cast_signed()
}
