ghost use Rattle.std.specs.Prelude.{◌≡◌, ◌+◌, ◌-◌, ◌*◌, ◌^◌, ◌≤◌, OnOk, length, max, min, vec_capacity};
ghost use Rattle.book_seq.specs.Chunks.{AreEmpty, AreRoomy, AreSound, first_room, list_of, spare_of};

use crate::Weigh;
use crate::chunk::Chunk;
use book_commodity::OutOfMemory;

/// For how many more entries there is memory.
pub(super) fn spare<E: Weigh>(chunks: &[Chunk<E>], free: usize, len: usize) -> usize
    requires { length chunks.now + free ≤ 2 ^ 54 }
    ensures { result ≡ spare_of (length chunks.now) free (first_room chunks.now) len }
{
    let total = chunks.len() + free;
    if total <= 1 {
        let room = match chunks.first() {
            Some(chunk) => chunk.room(),
            None => 0,
        };
        return room.min(512).saturating_sub(len);
    }
    free.max((256 * total).saturating_sub(len))
}

/// Makes the first chunk where there is none, and gives one that is alone room for so many more entries, but for no
/// more than 512 in all.
pub(super) fn widen<E: Weigh + Drop>(
    chunks: &mut Vec<Chunk<E>>,
    free: &[Chunk<E>],
    len: usize,
    extra: usize,
) -> Result<(), OutOfMemory>
    requires sound { AreSound chunks.old.items free.now len }
    requires memory { length chunks.old.items + length free.now ≤ vec_capacity chunks.old }
    ensures sound { AreSound chunks.new.items free.now len }
    ensures memory { length chunks.new.items + length free.now ≤ vec_capacity chunks.new }
    ensures list { list_of chunks.new.items ≡ list_of chunks.old.items }
    ensures count { length chunks.new.items ≤ max 1 (length chunks.old.items) }
    ensures spare { spare_of (length chunks.old.items) (length free.now) (first_room chunks.old.items) len
        ≤ spare_of (length chunks.new.items) (length free.now) (first_room chunks.new.items) len }
    ensures some { OnOk result (1 ≤ length chunks.new.items) }
    ensures room { OnOk result (length chunks.new.items + length free.now ≤ 1
        → min 512 (len + extra) ≤ first_room chunks.new.items) }
{
    if chunks.len() + free.len() > 1 {
        return Ok(());
    }
    if chunks.is_empty() {
        let alloc = *chunks.allocator();
        chunks.reserve_exact(1)?;
        let Ok(()) = chunks.push(Chunk::new(alloc)) else {
            unreachable!()
        };
    }
    chunks[0].reserve(extra.min(512 - len))
}

/// How many more chunks are enough for so many more entries: one for each entry, or as many as have the room for all of
/// them where each has but 256.
pub(super) fn missing(used: usize, free: usize, len: usize, extra: usize) -> usize
    requires few { used + free ≤ 2 ^ 54 }
    requires len { len ≤ 512 * used }
    requires extra { extra ≤ 2 ^ 62 }
    ensures { extra ≤ max (free + result) (256 * (used + (free + result)) - len) }
{
    let by_entries = extra.saturating_sub(free);
    let by_size = ((len + extra) / 256 + 1).saturating_sub(used + free);
    by_entries.min(by_size)
}

/// Adds so many free chunks, each with memory for 512 entries.
pub(super) fn add<E: Weigh + Drop>(
    chunks: &mut Vec<Chunk<E>>,
    free: &mut Vec<Chunk<E>>,
    count: usize,
) -> Result<(), OutOfMemory>
    requires few { length chunks.old.items + length free.old.items ≤ 2 ^ 54 }
    requires memory { length chunks.old.items + length free.old.items ≤ vec_capacity chunks.old }
    requires free_memory { length chunks.old.items + length free.old.items ≤ vec_capacity free.old + 1 }
    ensures chunks { chunks.new.items ≡ chunks.old.items }
    ensures few { length chunks.new.items + length free.new.items ≤ 2 ^ 54 }
    ensures memory { length chunks.new.items + length free.new.items ≤ vec_capacity chunks.new }
    ensures free_memory { length chunks.new.items + length free.new.items ≤ vec_capacity free.new + 1 }
    ensures roomy { AreRoomy free.old.items → AreRoomy free.new.items }
    ensures empty { AreEmpty free.old.items → AreEmpty free.new.items }
    ensures more { length free.old.items ≤ length free.new.items }
    ensures count { OnOk result (length free.new.items ≡ length free.old.items + count) }
{
    if count > (1 << 54) - (chunks.len() + free.len()) {
        return Err(OutOfMemory);
    }
    let alloc = *chunks.allocator();
    chunks.reserve(free.len() + count)?;
    free.reserve(chunks.len() + count)?;
    for _added in 0..count {
        let chunk = Chunk::with_room(alloc, 512)?;
        let Ok(()) = free.push(chunk) else {
            unreachable!()
        };
    }
    Ok(())
}
