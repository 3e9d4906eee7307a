ghost use Rattle.std.specs.Prelude.{◌≡◌, ◌+◌, ◌≤◌, length, take};
ghost use Rattle.book_seq.specs.Chunks.{ArePacked, list_of};
ghost use Rattle.book_seq.specs.Sums.{sums_of};

use crate::Weigh;
use crate::chunk::Chunk;
use crate::sums::Sums;
use book_commodity::Steps;

/// The sums of the first entries of the list that the chunks hold.
pub(super) fn sums_before<E: Weigh, L>(
    chunks: &[Chunk<E>],
    place: usize,
    steps: &mut Steps<L>,
) -> Sums
    requires place { place ≤ length (list_of chunks.now) }
    requires packed { ArePacked chunks.now }
    ensures sums { result ≡ sums_of E.weights (take place (list_of chunks.now)) }
    ensures steps { steps.new ≤ steps.old + (length chunks.now + 512) }
{
    let mut sums = Sums::none();
    let mut left = place;
    for chunk in chunks {
        if left < chunk.len() {
            return sums.plus(chunk.sums_before(left, steps));
        }
        left -= chunk.len();
        sums = sums.plus(chunk.sums(steps));
    }
    sums
}
