ghost use Rattle.std.specs.Prelude.{◌≡◌, ◌+◌, ◌-◌, ◌<◌, ◌≤◌, [], ◌++◌, false, length, insert, vec_capacity};
ghost use Rattle.book_seq.specs.Chunks.{AreEmpty, ArePacked, AreRoomy, IsShort, list_of};

use crate::Weigh;
use crate::chunk::Chunk;
use book_commodity::Steps;

/// Puts an entry into a full chunk with the help of a free one, which then follows it. Behind the last entry of the
/// last chunk the free one takes the entry alone; else each of the two takes one half of the entries. It takes no
/// memory.
pub(super) fn put<E: Weigh + Drop, L>(
    chunk: &mut Chunk<E>,
    fresh: &mut Chunk<E>,
    is_last: bool,
    offset: usize,
    entry: E,
    steps: &mut Steps<L>,
)
    requires full { length chunk.old.entries ≡ 512 }
    requires room { 512 ≤ chunk.old.room }
    requires empty { fresh.old.entries ≡ [] }
    requires fresh_room { 512 ≤ fresh.old.room }
    requires offset { offset ≤ 512 }
    ensures both { chunk.new.entries ++ fresh.new.entries ≡ insert chunk.old.entries offset entry }
    ensures least { 256 ≤ length chunk.new.entries }
    ensures most { length chunk.new.entries ≤ 512 }
    ensures fresh_least { (is_last ≡ false) → 256 ≤ length fresh.new.entries }
    ensures fresh_most { length fresh.new.entries ≤ 512 }
    ensures room { chunk.old.room ≤ chunk.new.room }
    ensures fresh_room { fresh.old.room ≤ fresh.new.room }
    ensures steps { steps.new ≤ steps.old + 257 }
{
    if is_last && offset == 512 {
        fresh.insert(0, entry, steps);
        return;
    }
    chunk.split(256, fresh, steps);
    if offset <= 256 {
        chunk.insert(offset, entry, steps);
    } else {
        fresh.insert(offset - 256, entry, steps);
    }
}

/// Where a chunk fell below 256 entries: all entries of the one behind it move into it where they fit, and the chunk
/// that they leave is free then; else the first of them moves.
pub(super) fn refill<E: Weigh + Drop, L>(
    chunks: &mut Vec<Chunk<E>>,
    free: &mut Vec<Chunk<E>>,
    place: usize,
    steps: &mut Steps<L>,
)
    requires short { IsShort chunks.old.items place }
    requires roomy { AreRoomy chunks.old.items }
    requires free_roomy { AreRoomy free.old.items }
    requires empty { AreEmpty free.old.items }
    requires free_memory { length chunks.old.items + length free.old.items ≤ vec_capacity free.old + 1 }
    ensures list { list_of chunks.new.items ≡ list_of chunks.old.items }
    ensures packed { ArePacked chunks.new.items }
    ensures roomy { AreRoomy chunks.new.items }
    ensures free_roomy { AreRoomy free.new.items }
    ensures empty { AreEmpty free.new.items }
    ensures some { 1 ≤ length chunks.new.items }
    ensures total { length chunks.new.items + length free.new.items ≡ length chunks.old.items + length free.old.items }
    ensures free { length free.old.items ≤ length free.new.items }
    ensures memory { vec_capacity chunks.old ≤ vec_capacity chunks.new }
    ensures free_memory { vec_capacity free.old ≤ vec_capacity free.new }
    ensures steps { steps.new ≤ steps.old + 2 }
{
    let mut next = chunks.remove(place + 1);
    fill(&mut chunks[place], &mut next, steps);
    if next.len() == 0 {
        let Ok(()) = free.push(next) else {
            unreachable!()
        };
    } else {
        let Ok(()) = chunks.insert(place + 1, next) else {
            unreachable!()
        };
    }
}

/// Moves all entries of the next chunk into one of 255, or the first of them where all don't fit.
fn fill<E: Weigh + Drop, L>(chunk: &mut Chunk<E>, next: &mut Chunk<E>, steps: &mut Steps<L>)
    requires low { length chunk.old.entries ≡ 255 }
    requires few { length next.old.entries ≤ 512 }
    requires room { 512 ≤ chunk.old.room }
    ensures both { chunk.new.entries ++ next.new.entries ≡ chunk.old.entries ++ next.old.entries }
    ensures most { length chunk.new.entries ≤ 512 }
    ensures least { 1 ≤ length next.new.entries → 256 ≤ length chunk.new.entries }
    ensures next_least { 1 ≤ length next.new.entries → 256 ≤ length next.new.entries }
    ensures next_most { length next.new.entries ≤ length next.old.entries }
    ensures room { chunk.old.room ≤ chunk.new.room }
    ensures next_room { next.old.room ≡ next.new.room }
    ensures steps { steps.new ≤ steps.old + 2 }
{
    if chunk.len() + next.len() <= 512 {
        chunk.append(next, steps);
        return;
    }
    let first = next.remove(0, steps);
    chunk.insert(chunk.len(), first, steps);
}
