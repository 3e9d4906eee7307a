ghost use Rattle.std.specs.Prelude.{◌≡◌, List, ℕ, ◌++◌, ◌<◌, ◌^◌, length, IfOk, OnOk};
ghost use Rattle.std.specs.List.{flat_map, AllByRecursion};
ghost use Rattle.book_codec.specs.Read.{Gives};
ghost use Rattle.book_codec.specs.Words.{listed};

use crate::{DecodeError, Field};
use book_commodity::{Many, OutOfMemory};
use std::alloc::Global;

/// A list: the number of its items and then the items.
impl<W, T: Field<W>> Field<W> for Many<T> {
    ghost fits = { λ items. (length items < 2 ^ 64) × AllByRecursion T.fits items };

    ghost spelling = { listed T.spelling };

    #[tactic(auto, unfolding(crate::specs::Words::listed))]
    fn spell(&self, out: &mut Vec<u8>) -> Result<(), OutOfMemory> {
        let items = self.as_slice();
        let count = items.len() as u64;
        Field::<W>::spell(&count, out)?;
        spell_all::<W, T>(items, out)
    }

    #[tactic(auto, unfolding(crate::specs::Words::listed))]
    fn read(alloc: Global, bytes: &[u8]) -> Result<(Many<T>, &[u8]), DecodeError> {
        let (count, rest) = match <u64 as Field<W>>::read(alloc, bytes) {
            Ok(found) => found,
            Err(error) => return Err(error),
        };
        match read_all::<W, T>(alloc, count, rest) {
            Ok((items, rest)) => Ok((in_fitting_room(items), rest)),
            Err(error) => Err(error),
        }
    }
}

/// Writes the items' spellings behind the bytes.
fn spell_all<W, T: Field<W>>(items: &[T], out: &mut Vec<u8>) -> Result<(), OutOfMemory>
    ensures spelled { OnOk result (out.new.items ≡ out.old.items ++ flat_map T.spelling items.now) }
    ensures fits { OnOk result (AllByRecursion T.fits items.now) }
{
    for item in items {
        item.spell(out)?;
    }
    Ok(())
}

/// Reads so many items. Memory is taken for an item when it has been read, and not by the count.
fn read_all<W, T: Field<W>>(
    alloc: Global,
    count: u64,
    bytes: &[u8],
) -> Result<(Many<T>, &[u8]), DecodeError>
    ensures count { IfOk result (λ found. length found.0 ≡ count) }
    ensures found { IfOk result (λ found. bytes.now ≡ flat_map T.spelling found.0 ++ found.1.now) }
    ensures fits { IfOk result (λ found. AllByRecursion T.fits found.0) }
    ensures again { (items : List T) (rest : List ℕ) → AllByRecursion T.fits items → length items ≡ count
        → bytes.now ≡ flat_map T.spelling items ++ rest
        → Gives {Y = List T × List ℕ} (λ found. (found.0, found.1.now)) result (items, rest) }
{
    let mut items = Many::new(alloc);
    let mut rest = bytes;
    for _place in 0..count {
        let (item, left) = match T::read(alloc, rest) {
            Ok(found) => found,
            Err(error) => return Err(error),
        };
        let Ok(()) = items.push(item) else {
            return Err(DecodeError::OutOfMemory);
        };
        rest = left;
    }
    Ok((items, rest))
}

/// The same items, in no more room than they take: most lists are short, and room was made for more.
fn in_fitting_room<T>(items: Many<T>) -> Many<T>
    ensures { result ≡ items }
{
    let mut items = items.into_vec();
    items.shrink_to_fit();
    Many::of(items)
}
