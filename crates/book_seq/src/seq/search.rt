ghost use Rattle.std.specs.Prelude.{◌≡◌, ◌+◌, ◌^◌, ◌<◌, ◌≤◌, length, take};
ghost use Rattle.book_seq.specs.Chunks.{ArePacked, list_of};
ghost use Rattle.book_seq.specs.Cuts.{IsCut, IsParted, is_passed};

use crate::chunk::Chunk;
use crate::{Test, Weigh};
use book_commodity::Steps;

/// How many first chunks have a last entry that passes the test, found by halving them.
pub(super) fn chunk_of<E: Weigh, T: Test<E>, L>(
    chunks: &[Chunk<E>],
    test: &T,
    steps: &mut Steps<L>,
) -> usize
    requires few { length chunks.now ≤ 2 ^ 54 }
    requires packed { ArePacked chunks.now }
    requires parted { IsParted (T.is_passed test.now) (list_of chunks.now) }
    ensures cut { IsCut (is_passed (T.is_passed test.now)) chunks.now result }
    ensures within { result ≤ length chunks.now }
    ensures steps { steps.new ≤ steps.old + 55 }
{
    let mut low = 0;
    let mut high = chunks.len();
    for _round in 0..55usize {
        if low == high {
            return low;
        }
        let middle = low + (high - low) / 2;
        if chunks[middle].is_passed(test, steps) {
            low = middle + 1;
        } else {
            high = middle;
        }
    }
    low
}

/// How many entries so many first chunks have. It passes over the chunks by their lengths.
pub(super) fn len_before<E: Weigh>(chunks: &[Chunk<E>], count: usize) -> usize
    requires count { count ≤ length chunks.now }
    requires fits { length (list_of chunks.now) < 2 ^ 64 }
    ensures { result ≡ length (list_of (take count chunks.now)) }
{
    let mut len = 0;
    for chunk in 0..count {
        len += chunks[chunk].len();
    }
    len
}
