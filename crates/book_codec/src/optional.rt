ghost use Rattle.std.specs.Prelude.{◌≡◌, List, ℕ, ◌++◌, IfSome};
ghost use Rattle.book_codec.specs.Read.{Gives};
ghost use Rattle.book_codec.specs.Words.{optional};

use crate::{DecodeError, Field};
use book_commodity::OutOfMemory;
use std::alloc::Global;

/// What may be absent: the byte 0, or the byte 1 and then the value.
impl<W, T: Field<W>> Field<W> for Option<T> {
    ghost fits = { λ value. IfSome value T.fits };

    ghost spelling = { optional T.spelling };

    #[tactic(auto, unfolding(crate::specs::Words::optional))]
    fn spell(&self, out: &mut Vec<u8>) -> Result<(), OutOfMemory> {
        match self {
            None => {
                out.push(0)?;
                Ok(())
            }
            Some(value) => {
                out.push(1)?;
                value.spell(out)
            }
        }
    }

    #[tactic(auto, unfolding(crate::specs::Words::optional))]
    fn read(alloc: Global, bytes: &[u8]) -> Result<(Option<T>, &[u8]), DecodeError> {
        match bytes {
            [0, rest @ ..] => Ok((None, rest)),
            [1, rest @ ..] => match T::read(alloc, rest) {
                Ok((value, rest)) => Ok((Some(value), rest)),
                Err(error) => Err(error),
            },
            _ => Err(DecodeError::Bad),
        }
    }
}
