ghost use Rattle.std.specs.Prelude.{◌≡◌, ℕ, List, ◌++◌, IfOk, OnOk};
ghost use Rattle.book_codec.specs.Read.{Gives};

use crate::DecodeError;
use book_commodity::OutOfMemory;
use std::alloc::Global;

/// A value with a spelling in bytes. `W` is a marker by which a crate above may give values of other crates a
/// spelling.
pub trait Field<W>: Sized + Drop {
    /// The values that have a spelling.
    ghost fits: { Self → Type 0 };

    /// The bytes of a value.
    ghost spelling: { Self → List ℕ };

    /// Writes the spelling of the value behind the bytes, for every value of the type.
    fn spell(&self, out: &mut Vec<u8>) -> Result<(), OutOfMemory>
        ensures spelled { OnOk result (out.new.items ≡ out.old.items ++ spelling self.now) }
        ensures fits { OnOk result (fits self.now) };

    /// Reads a value at the front of the bytes, and gives the bytes behind it.
    /// Bad: the bytes begin with no spelling.
    fn read(alloc: Global, bytes: &[u8]) -> Result<(Self, &[u8]), DecodeError>
        ensures found { IfOk result (λ found. bytes.now ≡ spelling found.0 ++ found.1.now) }
        ensures fits { IfOk result (λ found. fits found.0) }
        ensures again { (value : Self) (rest : List ℕ) → fits value → bytes.now ≡ spelling value ++ rest
            → Gives {Y = Self × List ℕ} (λ found. (found.0, found.1.now)) result (value, rest) };
}
