ghost use Rattle.std.specs.Prelude.{◌≡◌, ◌++◌, IfOk, OnOk, flat_map};
ghost use Rattle.std.specs.List.{AllByRecursion};
ghost use Rattle.book_undo.specs.Edit.{leaves};
ghost use Rattle.book_rows.specs.declared.format.RowFormat.TheVariants.{Two};
ghost use Rattle.book_rows.specs.Row.{IsRecord, IsWithin};
ghost use Rattle.book_opening.specs.Changes.{LeafFits, changes_of, leaf_changes};

use crate::thing_row::{head_row, thing_row};
use book_commodity::{Many, OutOfMemory};
use book_keeper::{Change, RowKey};
use book_rows::{Head, Record, kind_byte};
use book_undo::Edit;
use std::alloc::Global;

/// The changes of rows that an edit and a new head come to: the head is written, and what each leaf of the edit puts,
/// and the row of each thing that it deletes is gone. No other row is written.
pub fn changes_of(alloc: Global, head: Head, edit: &Edit) -> Result<Many<Change>, OutOfMemory>
    requires { IsWithin head }
    ensures changes { IfOk result (λ changes. changes ≡ changes_of head edit.now) }
    ensures head_fits { IfOk result (λ changes. IsRecord Two (Record.Head head)) }
    ensures fit { IfOk result (λ changes. AllByRecursion LeafFits (leaves edit.now)) }
{
    let mut changes = Many::new(alloc);
    changes.push(Change::Put(head_row(alloc, head)?))?;
    add_changes(alloc, edit, &mut changes)?;
    Ok(changes)
}

/// Adds the changes that the leaves of the edit come to.
#[cycle(changes)]
#[tactic(auto, using(book_undo::proofs::PartLaws::leaves_of_all))]
fn add_changes(alloc: Global, edit: &Edit, changes: &mut Many<Change>) -> Result<(), OutOfMemory>
    ensures added { OnOk result (changes.new ≡ changes.old ++ flat_map leaf_changes (leaves edit.now)) }
    ensures fit { OnOk result (AllByRecursion LeafFits (leaves edit.now)) }
{
    match edit {
        Edit::Currency(_) => Ok(()),
        Edit::Put(number, thing) => changes.push(Change::Put(thing_row(alloc, *number, thing)?)),
        Edit::Gone(kind, number) => changes.push(Change::Gone(RowKey {
            kind: kind_byte(*kind),
            id: *number,
        })),
        Edit::All(parts) => add_all(alloc, parts.as_slice(), changes),
    }
}

/// Adds the changes that the leaves of the edits come to.
#[cycle(changes)]
fn add_all(alloc: Global, parts: &[Edit], changes: &mut Many<Change>) -> Result<(), OutOfMemory>
    ensures added { OnOk result (changes.new ≡ changes.old
        ++ flat_map leaf_changes (flat_map leaves parts.now)) }
    ensures fit { OnOk result (AllByRecursion LeafFits (flat_map leaves parts.now)) }
{
    for part in parts {
        add_changes(alloc, part, changes)?;
    }
    Ok(())
}
