ghost use Rattle.std.specs.Prelude.{◌≡◌, List, ℕ, ◌++◌};
ghost use Rattle.book_codec.specs.Read.{Gives};
ghost use Rattle.book_codec.specs.Words.{flag};

use crate::{DecodeError, Field};
use book_commodity::OutOfMemory;
use std::alloc::Global;

/// A truth value: one byte, 1 or 0.
impl<W> Field<W> for bool {
    ghost fits = { λ b. Unit {0} };

    ghost spelling = { flag };

    #[tactic(auto, unfolding(crate::specs::Words::flag))]
    fn spell(&self, out: &mut Vec<u8>) -> Result<(), OutOfMemory> {
        if *self {
            out.push(1)?;
        } else {
            out.push(0)?;
        }
        Ok(())
    }

    #[tactic(auto, unfolding(crate::specs::Words::flag))]
    fn read(_alloc: Global, bytes: &[u8]) -> Result<(bool, &[u8]), DecodeError> {
        match bytes {
            [0, rest @ ..] => Ok((false, rest)),
            [1, rest @ ..] => Ok((true, rest)),
            _ => Err(DecodeError::Bad),
        }
    }
}
