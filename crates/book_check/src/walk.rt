ghost use Rattle.std.specs.Prelude.{◌≡◌, ◌<◌, ◌+◌, ℕ, Bool, List, Some, length, option_map, slice_get, IfOk};
ghost use Rattle.std.specs.Bool.{OnTrue};
ghost use Rattle.book_commodity.specs.Table.{Rises};
ghost use Rattle.book_check.specs.FirstUnsound.{all_hold, first_of_table};

use book_commodity::OutOfMemory;

/// The things of one kind in a book, which are asked one after another whether they keep the rules of their kind.
pub(crate) trait Checked: Sized + Drop {
    type Thing;

    /// The things, each with its number.
    ghost entries: { Self → List (ℕ × Self.Thing) };

    /// The rules of a thing under a number.
    ghost rules: { Self → ℕ → Self.Thing → List Bool };

    /// The things before a place were asked, and what is to stand once of them is known.
    ghost knows: { Self → ℕ → Type 0 };

    /// How many things there are.
    fn count(&self) -> usize
        ensures count { result ≡ length (entries self.now) }
        ensures rises { Rises (entries self.now) };

    /// The number of the thing at a place.
    fn number_at(&self, place: usize) -> u64
        requires { place < length (entries self.now) }
        ensures { option_map (λ entry. entry.0) (slice_get (entries self.now) place) ≡ Some result };

    /// Whether the thing at a place keeps its rules. If it does, it is one of those that were asked.
    fn keeps(&mut self, place: usize) -> Result<bool, OutOfMemory>
        requires there { place < length (entries self.old) }
        requires rises { Rises (entries self.old) }
        requires known { knows self.old place }
        ensures kept { IfOk result (λ kept. option_map (λ entry. all_hold (rules self.old entry.0 entry.1))
            (slice_get (entries self.old) place) ≡ Some kept) }
        ensures known { IfOk result (λ kept. OnTrue kept (knows self.new (place + 1))) }
        ensures same_entries { entries self.new ≡ entries self.old }
        ensures same_rules { rules self.new ≡ rules self.old };
}

/// The first number at which a thing breaks a rule of its kind, or is one too many.
pub(crate) fn first_broken<C: Checked>(
    mut things: C,
    most: usize,
) -> Result<Option<u64>, OutOfMemory>
    requires { C.knows things 0 }
    ensures { IfOk result (λ found. found ≡ first_of_table (C.rules things) most (C.entries things)) }
{
    for place in 0..things.count() {
        let number = things.number_at(place);
        if place >= most {
            return Ok(Some(number));
        }
        if !things.keeps(place)? {
            return Ok(Some(number));
        }
    }
    Ok(None)
}
