ghost use Rattle.std.specs.Prelude.{◌≡◌, List, ℕ, ◌++◌};
ghost use Rattle.book_commodity.specs.Day.{IsDay};
ghost use Rattle.book_codec.specs.Read.{Gives};
ghost use Rattle.book_codec.specs.Words.{signed};

use crate::{DecodeError, Field};
use book_commodity::{Day, OutOfMemory};
use std::alloc::Global;

/// A day: its number as a signed number. No other number is a day.
impl<W> Field<W> for Day {
    ghost fits = { IsDay };

    ghost spelling = { signed };

    fn spell(&self, out: &mut Vec<u8>) -> Result<(), OutOfMemory> {
        let number = self.number() as i64;
        Field::<W>::spell(&number, out)
    }

    fn read(alloc: Global, bytes: &[u8]) -> Result<(Day, &[u8]), DecodeError> {
        let (number, rest) = match <i64 as Field<W>>::read(alloc, bytes) {
            Ok(found) => found,
            Err(error) => return Err(error),
        };
        if number < -25_567 || number > 84_005 {
            return Err(DecodeError::Bad);
        }
        match Day::of_number(number as i32) {
            Some(day) => Ok((day, rest)),
            None => Err(DecodeError::Bad),
        }
    }
}
