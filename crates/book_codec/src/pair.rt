ghost use Rattle.std.specs.Prelude.{◌≡◌, List, ℕ, ◌++◌};
ghost use Rattle.book_codec.specs.Read.{Gives};

use crate::{DecodeError, Field};
use book_commodity::OutOfMemory;
use std::alloc::Global;

/// A pair: the first and then the second.
impl<W, A: Field<W>, B: Field<W>> Field<W> for (A, B) {
    ghost fits = { λ pair. A.fits pair.0 × B.fits pair.1 };

    ghost spelling = { λ pair. A.spelling pair.0 ++ B.spelling pair.1 };

    fn spell(&self, out: &mut Vec<u8>) -> Result<(), OutOfMemory> {
        self.0.spell(out)?;
        self.1.spell(out)
    }

    fn read(alloc: Global, bytes: &[u8]) -> Result<((A, B), &[u8]), DecodeError> {
        let (first, rest) = match A::read(alloc, bytes) {
            Ok(found) => found,
            Err(error) => return Err(error),
        };
        match B::read(alloc, rest) {
            Ok((second, rest)) => Ok(((first, second), rest)),
            Err(error) => Err(error),
        }
    }
}
