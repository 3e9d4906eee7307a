ghost use Rattle.std.specs.Prelude.{◌≡◌, ◌≤◌, ◌<◌, ◌^◌, ◌==◌, ◌||◌, not, [], ◌∷◌, IfOk, find, length};
ghost use Rattle.std.specs.Option.{option_and_then, option_copied};
ghost use Rattle.book_commodity.specs.Rules.{ReportsFirst};
ghost use Rattle.book_splits.specs.TransactionRules.{is_among, numbers_of};
ghost use Rattle.book_step.specs.Editing.{drawn_by, drawn_for, edited_split, edited_splits, is_reconciled};
ghost use Rattle.book_step.specs.Editing.{keeps_mark, kept_split, number_given, number_rules, numbers_given};
ghost use Rattle.book_step.specs.Editing.{unknown_split};

use crate::posting::new_split;
use crate::{GivenSplit, Rule};
use book_commodity::{Kind, Many, OutOfMemory};
use book_splits::{Mark, Split};
use std::alloc::Global;

/// The numbers of the given splits are those of splits of the transaction, each once.
pub(crate) fn check_given_numbers(splits: &[Split], given: &[GivenSplit]) -> Result<(), Rule>
    ensures { ReportsFirst (number_rules splits.now [] given.now) result }
{
    for (place, split) in given.iter().enumerate() {
        check_number(splits, &given[..place], split.id)?;
    }
    Ok(())
}

/// The number, where there is one, is that of one of the splits, and not of one given before.
fn check_number(splits: &[Split], before: &[GivenSplit], id: Option<u64>) -> Result<(), Rule>
    ensures { ReportsFirst (unknown_split splits.now (numbers_given before.now) id ∷ []) result }
{
    let Some(id) = id else {
        return Ok(());
    };
    if is_unknown(splits, before, id) {
        return Err(Rule::Unknown {
            kind: Kind::Split,
            id,
        });
    }
    Ok(())
}

/// Whether the number is of none of the splits, or of one given before.
fn is_unknown(splits: &[Split], before: &[GivenSplit], id: u64) -> bool
    ensures { result ≡ (not (is_among (numbers_of splits.now) id) || is_among (numbers_given before.now) id) }
{
    !has_split(splits, id) || is_given(before, id)
}

/// Whether one of the splits has this number.
fn has_split(splits: &[Split], id: u64) -> bool
    ensures { result ≡ is_among (numbers_of splits.now) id }
{
    for split in splits {
        if split.id == id {
            return true;
        }
    }
    false
}

/// Whether one of the given splits has this number.
fn is_given(given: &[GivenSplit], id: u64) -> bool
    ensures { result ≡ is_among (numbers_given given.now) id }
{
    for split in given {
        if has_number(split, id) {
            return true;
        }
    }
    false
}

/// Whether the given split has this number.
fn has_number(given: &GivenSplit, id: u64) -> bool
    ensures { result ≡ is_among (number_given given.now.id) id }
{
    match given.id {
        Some(number) => number == id,
        None => false,
    }
}

/// The split of this number, if it is one of these.
pub(crate) fn find_split(splits: &[Split], id: u64) -> Option<&Split>
    ensures { option_copied result ≡ find (λ split. split.id == id) splits.now }
{
    splits.iter().find(|split| split.id == id)
}

/// The splits after the edit, of which the new ones draw their numbers by place, and how many they draw.
pub(crate) fn edited_splits(
    alloc: Global,
    old: &[Split],
    next: u64,
    given: Many<GivenSplit>,
) -> Result<(Many<Split>, u64), OutOfMemory>
    requires { next < 2 ^ 62 }
    ensures splits { IfOk result (λ made. made.0 ≡ edited_splits old.now next given) }
    ensures drawn { IfOk result (λ made. made.1 ≡ drawn_by old.now given) }
    ensures few { IfOk result (λ made. made.1 ≤ length made.0) }
{
    let mut splits = Vec::new(alloc);
    let mut drawn = 0u64;
    for split in given.into_vec() {
        let kept = kept_by(old, split.id);
        let number = next + drawn;
        drawn += drawn_for(kept);
        splits.push(edited_split(number, split, kept))?;
    }
    Ok((Many::of(splits), drawn))
}

/// The split that a given split is the new form of: the one whose number it has.
fn kept_by(splits: &[Split], id: Option<u64>) -> Option<&Split>
    ensures { option_copied result ≡ option_and_then (λ number. find (λ split. split.id == number) splits.now) id }
{
    match id {
        Some(id) => find_split(splits, id),
        None => None,
    }
}

/// How many numbers a given split draws: one where it is a new one.
fn drawn_for(kept: Option<&Split>) -> u64
    ensures { result ≡ drawn_for (option_copied kept.entry) }
{
    match kept {
        Some(_) => 0,
        None => 1,
    }
}

/// A given split as it stands in the book after the edit: the new form of a split that stays, or a new one.
fn edited_split(number: u64, given: GivenSplit, kept: Option<&Split>) -> Split
    ensures { result ≡ edited_split number given (option_copied kept.entry) }
{
    match kept {
        Some(split) => kept_split(split, given),
        None => new_split(number, given),
    }
}

/// A split that stays keeps its number, and its mark and reconciliation where it may; else it is new again.
fn kept_split(split: &Split, given: GivenSplit) -> Split
    ensures { result ≡ kept_split split.now given }
{
    let (mark, recon) = if keeps_mark(split, given.account, given.quantity) {
        (split.mark, split.recon)
    } else {
        (Mark::New, None)
    };
    Split {
        id: split.id,
        account: given.account,
        memo: given.memo,
        action: given.action,
        mark,
        recon,
        value: given.value,
        quantity: given.quantity,
    }
}

/// Whether a split keeps its mark under this account with this quantity.
fn keeps_mark(split: &Split, account: u64, quantity: i64) -> bool
    ensures { result ≡ keeps_mark split.now account quantity }
{
    !is_reconciled(split.mark) || (account == split.account && quantity == split.quantity)
}

/// Whether it is the mark of a split that is reconciled.
pub(crate) fn is_reconciled(mark: Mark) -> bool
    ensures { result ≡ is_reconciled mark }
{
    match mark {
        Mark::Reconciled => true,
        Mark::New | Mark::Cleared | Mark::Voided => false,
    }
}
