ghost use Rattle.std.specs.Prelude.{◌≡◌, [], IfOk, IfSome, Some, filter, map, option_map, true, unwrap_or};
ghost use Rattle.std.specs.Option.{option_copied};
ghost use Rattle.book_splits.specs.Balance.{splits_of};
ghost use Rattle.book_splits.specs.TransactionRules.{are_once, is_among, numbers_of};
ghost use Rattle.book_match.specs.Bounds.{is_near};
ghost use Rattle.book_match.specs.Kept.{num_of, view_of, views_on};
ghost use Rattle.book_match.specs.Proposal.{nearest as nearest_of, proposal, same_number};
ghost use Rattle.book_match.specs.Rank.{rank_of};
ghost use Rattle.book_match.specs.Taken.{is_left};

use crate::nearest::distance;
use crate::order::in_order;
use crate::rank::{Rank, nearer};
use crate::{AmountIndex, Free, LineView, Matched};
use book_commodity::{Many, OutOfMemory, Text};
use book_splits::{Split, Txn, Txns};
use std::alloc::Global;
use std::collections::BTreeSet;

/// The pairs that `propose` gives for the splits that the index has for the account. The number text of a split is that
/// of its transaction; empty, where no transaction has it.
pub fn propose_kept(
    alloc: Global,
    lines: &[LineView],
    index: &AmountIndex,
    account: u64,
    txns: &Txns,
    window: u32,
) -> Result<Many<Matched>, OutOfMemory>
    requires once { are_once (numbers_of (splits_of txns.now.entries)) ≡ true }
    ensures { IfOk result (λ pairs. pairs
        ≡ proposal window lines.now (views_on account index.now.entries txns.now.entries)) }
{
    let order = in_order(alloc, lines)?;
    let mut taken = BTreeSet::new(alloc);
    let mut pairs = Many::new(alloc);
    for line in order.as_slice() {
        let entries = entries_near(alloc, line, index, account, window)?;
        let Some(split) = split_for(line, entries.as_slice(), txns, &taken) else {
            continue;
        };
        taken.insert(split)?;
        pairs.push(Matched {
            line: line.line,
            split,
        })?;
    }
    Ok(pairs)
}

/// The splits of the account that have the line's amount and are at most so many days away.
fn entries_near(
    alloc: Global,
    line: &LineView,
    index: &AmountIndex,
    account: u64,
    window: u32,
) -> Result<Vec<Free>, OutOfMemory>
    ensures { IfOk result (λ entries. entries.items
        ≡ filter (is_near account line.now.amount line.now.day window) index.now.entries) }
{
    index.near(alloc, account, line.amount, line.day, window)
}

/// The number of the split that the line takes of these; `None` where none of them is left.
fn split_for(line: &LineView, entries: &[Free], txns: &Txns, taken: &BTreeSet<u64>) -> Option<u64>
    requires { are_once (numbers_of (splits_of txns.now.entries)) ≡ true }
    ensures { result ≡ option_map (λ view. view.split)
        (nearest_of line.now (map (view_of txns.now.entries) (filter (is_left taken.now) entries.now))) }
{
    match least(line, entries, txns, taken) {
        Some(rank) => Some(rank.split),
        None => None,
    }
}

/// How near the nearest of these splits that is left is to the line; `None` where none of them is left.
fn least(line: &LineView, entries: &[Free], txns: &Txns, taken: &BTreeSet<u64>) -> Option<Rank>
    requires { are_once (numbers_of (splits_of txns.now.entries)) ≡ true }
    ensures { result ≡ option_map (rank_of line.now)
        (nearest_of line.now (map (view_of txns.now.entries) (filter (is_left taken.now) entries.now))) }
{
    let mut best = None;
    for free in entries {
        if taken.contains(&free.split) {
            continue;
        }
        best = Some(nearer(best, rank(line, free, txns)));
    }
    best
}

/// How near the split is to the line.
fn rank(line: &LineView, free: &Free, txns: &Txns) -> Rank
    requires { are_once (numbers_of (splits_of txns.now.entries)) ≡ true }
    ensures { result ≡ rank_of line.now (view_of txns.now.entries free.now) }
{
    Rank {
        days: distance(line.day, free.day),
        same: has_number(line, free, txns),
        split: free.split,
    }
}

/// Whether the split's transaction has the line's number, and the line has one.
fn has_number(line: &LineView, free: &Free, txns: &Txns) -> bool
    requires { are_once (numbers_of (splits_of txns.now.entries)) ≡ true }
    ensures { result ≡ same_number line.now (view_of txns.now.entries free.now) }
{
    if line.number.is_empty() {
        return false;
    }
    match find_num(txns, free.split) {
        Some(num) => num.as_str() == line.number.as_str(),
        None => false,
    }
}

/// The number text of the transaction that has the split; `None` where none has it.
fn find_num(txns: &Txns, split: u64) -> Option<&Text>
    requires { are_once (numbers_of (splits_of txns.now.entries)) ≡ true }
    ensures { option_copied result ≡ num_of split txns.now.entries }
{
    if let Some(transaction) = transaction_nearby(txns, split) {
        return Some(&transaction.num);
    }
    for (_, transaction) in txns.as_slice() {
        if has_split(transaction.splits.as_slice(), split) {
            return Some(&transaction.num);
        }
    }
    None
}

/// The last transaction with a number smaller than the split's, where it has the split, as it does unless the split
/// was added to a transaction later: a transaction's number is drawn before those of its splits.
fn transaction_nearby(txns: &Txns, split: u64) -> Option<&Txn>
    requires { are_once (numbers_of (splits_of txns.now.entries)) ≡ true }
    ensures { IfSome result (λ transaction. num_of split txns.now.entries ≡ Some transaction.now.num) }
{
    let entries = txns.as_slice();
    let place = entries.partition_point(|entry| entry.0 < split);
    if place == 0 {
        return None;
    }
    let transaction = &entries[place - 1].1;
    if has_split(transaction.splits.as_slice(), split) {
        return Some(transaction);
    }
    None
}

/// Whether one of the splits has the number.
fn has_split(splits: &[Split], number: u64) -> bool
    ensures { result ≡ is_among (numbers_of splits.now) number }
{
    for split in splits {
        if split.id == number {
            return true;
        }
    }
    false
}
