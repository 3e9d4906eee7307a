ghost use Rattle.std.specs.Prelude.{◌≡◌, ◌++◌, [], length, IfOk, OnOk};
ghost use Rattle.book_commodity.specs.Table.{Rises, with_entry};
ghost use Rattle.book_free.specs.Following.{come_of, coming as coming_of, gone_of, leaving as leaving_of};
ghost use Rattle.book_free.specs.Following.{listed, picked, same_free};

use book_commodity::{OutOfMemory, Table};
use book_match::{Free, sort};
use std::alloc::Global;
use std::marker::Model;

/// What becomes of a split by an edit: what the index has of it before the edit and after it, and which line is matched
/// with it then.
#[derive(Clone, Copy, Debug, PartialEq, Eq)]
pub struct Move {
    /// The split before the edit, where it is free then.
    pub before: Option<Free>,
    /// The split after the edit, where it is free then.
    pub after: Option<Free>,
    /// The number of the line that is matched with it after the edit.
    pub line: Option<u64>,
}

impl Move {
    /// What leaves the index: the split as it was, unless it stays as it was.
    fn leaving(&self) -> Option<Free>
        ensures { result ≡ leaving_of self.now }
    {
        if is_same(&self.before, &self.after) {
            None
        } else {
            self.before
        }
    }

    /// What comes into the index: the split as it becomes, unless it stays as it was.
    fn coming(&self) -> Option<Free>
        ensures { result ≡ coming_of self.now }
    {
        if is_same(&self.before, &self.after) {
            None
        } else {
            self.after
        }
    }
}

/// Whether the two are the same split of the same account, amount and day, or neither is one.
fn is_same(before: &Option<Free>, after: &Option<Free>) -> bool
    ensures { result ≡ same_free before.now after.now }
{
    match (before, after) {
        (Some(before), Some(after)) => before.is_same(after),
        (None, None) => true,
        _ => false,
    }
}

/// What becomes of splits by an edit, by their numbers; and what leaves the index by that and comes into it, in its
/// order. Contracts see the list of its entries.
#[derive(Drop)]
pub struct Moves {
    pub(crate) splits: Table<Move>,
    pub(crate) gone: Vec<Free>,
    pub(crate) come: Vec<Free>,
}

impl Model for Moves {
    ghost use Rattle.std.specs.Prelude.{ℕ, List};
    ghost use Rattle.book_free.specs.Following.{AreListed};
    ghost use Rattle.book_free.specs.declared.moves.Move.{Move};

    ghost Value = { List (ℕ × Move) };

    ghost view = { λ m. m.splits.entries };

    ghost invariant = { λ m. AreListed m.splits.entries m.gone.items m.come.items };
}

impl Moves {
    /// No split is moved; it takes no memory.
    pub fn none(alloc: Global) -> Moves
        ensures { result ≡ [] }
    {
        Moves {
            splits: Table::new(alloc),
            gone: Vec::new(alloc),
            come: Vec::new(alloc),
        }
    }

    /// This becomes of splits.
    pub(crate) fn of(alloc: Global, splits: Table<Move>) -> Result<Moves, OutOfMemory>
        ensures { IfOk result (λ moves. moves ≡ splits.entries) }
    {
        let _ = splits.len();
        let gone = gone(alloc, splits.as_slice())?;
        let come = come(alloc, splits.as_slice())?;
        Ok(Moves { splits, gone, come })
    }

    /// How many splits it says something of, also of those that stay as they were.
    pub fn len(&self) -> usize
        ensures count { result ≡ length self.now }
        ensures rises { Rises self.now }
    {
        self.splits.len()
    }
}

/// Says what becomes of a split.
pub(crate) fn add(splits: &mut Table<Move>, split: u64, change: &Move) -> Result<(), OutOfMemory>
    ensures { OnOk result (splits.new.entries ≡ with_entry split change.now splits.old.entries) }
{
    splits.reserve(1)?;
    let before: Option<Free> = change.before;
    let after: Option<Free> = change.after;
    let line = change.line;
    let _ = splits.put(
        split,
        Move {
            before,
            after,
            line,
        },
    );
    Ok(())
}

/// What leaves the index, in its order.
fn gone(alloc: Global, splits: &[(u64, Move)]) -> Result<Vec<Free>, OutOfMemory>
    ensures { IfOk result (λ gone. gone.items ≡ gone_of splits.now) }
{
    let mut gone = Vec::new(alloc);
    for (_, change) in splits {
        add_free(&mut gone, &change.leaving())?;
    }
    sort(&mut gone)?;
    Ok(gone)
}

/// What comes into the index, in its order.
fn come(alloc: Global, splits: &[(u64, Move)]) -> Result<Vec<Free>, OutOfMemory>
    ensures { IfOk result (λ come. come.items ≡ come_of splits.now) }
{
    let mut come = Vec::new(alloc);
    for (_, change) in splits {
        add_free(&mut come, &change.coming())?;
    }
    sort(&mut come)?;
    Ok(come)
}

/// Adds a split, if one is given.
fn add_free(splits: &mut Vec<Free>, free: &Option<Free>) -> Result<(), OutOfMemory>
    ensures { OnOk result (splits.new.items ≡ splits.old.items ++ listed free.now) }
{
    if let Some(free) = free {
        splits.push(*free)?;
    }
    Ok(())
}
