ghost use Rattle.std.specs.Prelude.{◌≡◌, ◌++◌, ⊤, List, ℕ, Some, None, IfOk, OnOk, IfSome, IfNone};
ghost use Rattle.book_codec.specs.Read.{Gives};
ghost use Rattle.book_rows.specs.declared.format.RowFormat.TheVariants.{One, Two};
ghost use Rattle.book_rows.specs.TransactionBytes.{IsMark, mark_bytes, IsSplit, split_bytes, IsTxn, txn_bytes};
ghost use Rattle.book_rows.specs.TransactionBytes.{split_made, txn_made, place_of_mark, IsKept, IsVoid, kept_bytes};
ghost use Rattle.book_rows.specs.TransactionBytes.{split_rest, IsSplitRest, kept_made, void_bytes, void_made};

use crate::{RowFormat, Rows};
use book_codec::{DecodeError, Field};
use book_commodity::{Day, Many, OutOfMemory, Text};
use book_splits::{KeptSplit, Mark, Split, Txn, Void};
use std::alloc::Global;

/// A mark as one byte: its place in the list of them, from 1.
impl Field<Rows> for Mark {
    ghost fits = { IsMark };

    ghost spelling = { mark_bytes };

    fn spell(&self, out: &mut Vec<u8>) -> Result<(), OutOfMemory> {
        out.push(place_of_mark(*self))?;
        Ok(())
    }

    fn read(_alloc: Global, bytes: &[u8]) -> Result<(Mark, &[u8]), DecodeError> {
        let [place, rest @ ..] = bytes else {
            return Err(DecodeError::Bad);
        };
        match mark_at(*place) {
            Some(variant) => Ok((variant, rest)),
            None => Err(DecodeError::Bad),
        }
    }
}

/// The place of a mark in the list of them, from 1.
fn place_of_mark(variant: Mark) -> u8
    ensures { result ≡ place_of_mark variant }
{
    match variant {
        Mark::New => 1,
        Mark::Cleared => 2,
        Mark::Reconciled => 3,
        Mark::Voided => 4,
    }
}

/// The mark at a place of the list of them, from 1; None where there is no such place.
fn mark_at(place: u8) -> Option<Mark>
    ensures found { IfSome result (λ variant. place ≡ place_of_mark variant) }
    ensures none { IfNone result ((variant : Mark) → place ≡ place_of_mark variant → ⊥) }
    ensures again { (variant : Mark) → place ≡ place_of_mark variant → result ≡ Some variant }
{
    match place {
        1 => Some(Mark::New),
        2 => Some(Mark::Cleared),
        3 => Some(Mark::Reconciled),
        4 => Some(Mark::Voided),
        _ => None,
    }
}

/// The fields of a split, in the order of their bytes.
type SplitFields = (
    u64,
    (u64, (Text, (Text, (Mark, (Option<u64>, (i64, i64)))))),
);

/// A split: its number, its account, its memo, its action, its mark, its reconciliation, its value and its quantity.
impl Field<Rows> for Split {
    ghost fits = { IsSplit };

    ghost spelling = { split_bytes };

    fn spell(&self, out: &mut Vec<u8>) -> Result<(), OutOfMemory> {
        Field::<Rows>::spell(&self.id, out)?;
        Field::<Rows>::spell(&self.account, out)?;
        Field::<Rows>::spell(&self.memo, out)?;
        Field::<Rows>::spell(&self.action, out)?;
        spell_split_rest(self, out)
    }

    fn read(alloc: Global, bytes: &[u8]) -> Result<(Split, &[u8]), DecodeError> {
        let (fields, rest) = match <SplitFields as Field<Rows>>::read(alloc, bytes) {
            Ok(found) => found,
            Err(error) => return Err(error),
        };
        Ok((split_of(fields), rest))
    }
}

/// Writes the bytes of the fields from `mark` on.
fn spell_split_rest(it: &Split, out: &mut Vec<u8>) -> Result<(), OutOfMemory>
    ensures spelled { OnOk result (out.new.items ≡ out.old.items ++ split_rest it.now) }
    ensures fits { OnOk result (IsSplitRest it.now) }
{
    Field::<Rows>::spell(&it.mark, out)?;
    Field::<Rows>::spell(&it.recon, out)?;
    Field::<Rows>::spell(&it.value, out)?;
    Field::<Rows>::spell(&it.quantity, out)
}

/// The split whose fields these are.
fn split_of(fields: SplitFields) -> Split
    ensures { result ≡ split_made fields }
{
    let (id, (account, (memo, (action, (mark, (recon, (value, quantity))))))) = fields;
    Split {
        id,
        account,
        memo,
        action,
        mark,
        recon,
        value,
        quantity,
    }
}

/// The fields of what is kept of a voided split, in the order of their bytes.
type KeptFields = (i64, i64);

/// What is kept of a voided split: its value and its quantity.
impl Field<Rows> for KeptSplit {
    ghost fits = { IsKept };

    ghost spelling = { kept_bytes };

    fn spell(&self, out: &mut Vec<u8>) -> Result<(), OutOfMemory> {
        Field::<Rows>::spell(&self.value, out)?;
        Field::<Rows>::spell(&self.quantity, out)
    }

    fn read(alloc: Global, bytes: &[u8]) -> Result<(KeptSplit, &[u8]), DecodeError> {
        let (fields, rest) = match <KeptFields as Field<Rows>>::read(alloc, bytes) {
            Ok(found) => found,
            Err(error) => return Err(error),
        };
        Ok((kept_of(fields), rest))
    }
}

/// What is kept of a split, made of its fields.
fn kept_of(fields: KeptFields) -> KeptSplit
    ensures { result ≡ kept_made fields }
{
    let (value, quantity) = fields;
    KeptSplit { value, quantity }
}

/// The fields of what is kept of a voided transaction, in the order of their bytes.
type VoidFields = (Text, Many<KeptSplit>);

/// What is kept of a voided transaction: the reason, and what is kept of each split.
impl Field<Rows> for Void {
    ghost fits = { IsVoid };

    ghost spelling = { void_bytes };

    fn spell(&self, out: &mut Vec<u8>) -> Result<(), OutOfMemory> {
        Field::<Rows>::spell(&self.reason, out)?;
        Field::<Rows>::spell(&self.kept, out)
    }

    fn read(alloc: Global, bytes: &[u8]) -> Result<(Void, &[u8]), DecodeError> {
        let (fields, rest) = match <VoidFields as Field<Rows>>::read(alloc, bytes) {
            Ok(found) => found,
            Err(error) => return Err(error),
        };
        Ok((void_of(fields), rest))
    }
}

/// What is kept of a transaction, made of its fields.
fn void_of(fields: VoidFields) -> Void
    ensures { result ≡ void_made fields }
{
    let (reason, kept) = fields;
    Void { reason, kept }
}

/// The fields of a transaction that both formats have, in the order of their bytes.
type CommonFields = (u64, (Day, (Text, (Text, Many<Split>))));

/// The fields of a transaction in format 2: those of both formats, and what is kept of it.
type TxnFields = (CommonFields, Option<Void>);

/// A transaction in format 2: its currency, its day, its number text, its description and its splits, and what is kept
/// of it, if it is voided.
impl Field<Rows> for Txn {
    ghost fits = { IsTxn Two };

    ghost spelling = { txn_bytes Two };

    fn spell(&self, out: &mut Vec<u8>) -> Result<(), OutOfMemory> {
        Field::<Rows>::spell(&self.currency, out)?;
        Field::<Rows>::spell(&self.day, out)?;
        Field::<Rows>::spell(&self.num, out)?;
        Field::<Rows>::spell(&self.description, out)?;
        Field::<Rows>::spell(&self.splits, out)?;
        Field::<Rows>::spell(&self.voided, out)
    }

    fn read(alloc: Global, bytes: &[u8]) -> Result<(Txn, &[u8]), DecodeError> {
        let (fields, rest) = match <TxnFields as Field<Rows>>::read(alloc, bytes) {
            Ok(found) => found,
            Err(error) => return Err(error),
        };
        Ok((txn_of(fields), rest))
    }
}

/// Reads a transaction of the format at the front of the bytes, and gives the bytes behind it.
/// Bad: the bytes begin with none.
pub(crate) fn read_txn(
    alloc: Global,
    format: RowFormat,
    bytes: &[u8],
) -> Result<(Txn, &[u8]), DecodeError>
    ensures found { IfOk result (λ found. bytes.now ≡ txn_bytes format found.0 ++ found.1.now) }
    ensures fits { IfOk result (λ found. IsTxn format found.0) }
    ensures again { (it : Txn) (rest : List ℕ) → IsTxn format it → bytes.now ≡ txn_bytes format it ++ rest
        → Gives {Y = Txn × List ℕ} (λ found. (found.0, found.1.now)) result (it, rest) }
{
    match format {
        RowFormat::One => read_in_format_one(alloc, bytes),
        RowFormat::Two => <Txn as Field<Rows>>::read(alloc, bytes),
    }
}

/// The same in format 1, which has no voided transactions.
fn read_in_format_one(alloc: Global, bytes: &[u8]) -> Result<(Txn, &[u8]), DecodeError>
    ensures found { IfOk result (λ found. bytes.now ≡ txn_bytes One found.0 ++ found.1.now) }
    ensures fits { IfOk result (λ found. IsTxn One found.0) }
    ensures again { (it : Txn) (rest : List ℕ) → IsTxn One it → bytes.now ≡ txn_bytes One it ++ rest
        → Gives {Y = Txn × List ℕ} (λ found. (found.0, found.1.now)) result (it, rest) }
{
    let (fields, rest) = match <CommonFields as Field<Rows>>::read(alloc, bytes) {
        Ok(found) => found,
        Err(error) => return Err(error),
    };
    let transaction = txn_of((fields, None));
    if !transaction.is_not_voided() {
        return Err(DecodeError::Bad);
    }
    Ok((transaction, rest))
}

/// The transaction whose fields these are.
fn txn_of(fields: TxnFields) -> Txn
    ensures { result ≡ txn_made fields }
{
    let ((currency, (day, (num, (description, splits)))), voided) = fields;
    Txn {
        currency,
        day,
        num,
        description,
        splits,
        voided,
    }
}
