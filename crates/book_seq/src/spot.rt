ghost use Rattle.std.specs.Prelude.{◌≡◌, ◌≤◌, length};
ghost use Rattle.book_seq.specs.Chunks.{IsAt, list_of};

use crate::Weigh;
use crate::chunk::Chunk;

/// A place of a list in chunks: the chunk where it is, and how many entries of the chunk stand before it.
#[derive(Clone, Copy)]
pub(crate) struct Spot {
    pub(crate) chunk: usize,
    pub(crate) offset: usize,
}

/// Where a place of a list of so many entries is. One in the last chunk, where most are, is found at once; else it
/// passes over the chunks by their lengths. Neither is a step.
pub(crate) fn spot_of<E: Weigh>(chunks: &[Chunk<E>], place: usize, len: usize) -> Spot
    requires some { 1 ≤ length chunks.now }
    requires len { len ≡ length (list_of chunks.now) }
    requires place { place ≤ len }
    ensures { IsAt chunks.now place result }
{
    let last = chunks.len() - 1;
    let behind = len - place;
    let last_len = chunks[last].len();
    if behind <= last_len {
        return Spot {
            chunk: last,
            offset: last_len - behind,
        };
    }
    let mut offset = place;
    for chunk in 0..last {
        let len = chunks[chunk].len();
        if offset < len {
            return Spot { chunk, offset };
        }
        offset -= len;
    }
    Spot {
        chunk: last,
        offset,
    }
}
