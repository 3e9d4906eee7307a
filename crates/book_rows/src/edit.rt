ghost use Rattle.std.specs.Prelude.{◌≡◌, ◌∷◌, ◌++◌, ◌<◌, ◌^◌, ◌≤◌, List, ℕ, length, flat_map, IfOk, OnOk};
ghost use Rattle.std.specs.List.{AllByRecursion};
ghost use Rattle.book_codec.specs.Read.{Gives};
ghost use Rattle.book_undo.specs.Edit.{depth};
ghost use Rattle.book_rows.specs.Format.{format_byte};
ghost use Rattle.book_rows.specs.EditBytes.{HasValues, IsEdit, IsEditWithin, edit_bytes};

use crate::format::{WRITTEN_FORMAT, format_byte};
use crate::thing::{read_thing, spell_thing};
use crate::{RowFormat, Rows};
use book_codec::{DecodeError, Field, behind_format};
use book_commodity::{Bytes, Many, OutOfMemory};
use book_undo::{Edit, ThingKind};
use std::alloc::Global;

/// How many lists of an edit may stand in one another.
const MAX_DEPTH: u32 = 8;

/// The body of the row of an edit, back or forth, in format 2. At most eight of its lists stand in one another.
pub fn write_edit(alloc: Global, edit: &Edit) -> Result<Bytes, OutOfMemory>
    requires { depth edit.now ≤ 8 }
    ensures body { IfOk result (λ body. body ≡ 2 ∷ edit_bytes RowFormat.Two edit.now) }
    ensures fits { IfOk result (λ body. IsEdit RowFormat.Two edit.now) }
{
    let mut out = Vec::new(alloc);
    out.push(WRITTEN_FORMAT)?;
    spell_edit(edit, &mut out)?;
    Ok(Bytes::of(out))
}

/// Writes the spelling of the edit, in format 2, behind the bytes.
#[cycle(spelling)]
#[tactic(auto, using(crate::proofs::EditLemmas::all_of_values), unfolding(crate::specs::EditBytes::edit_bytes))]
pub(crate) fn spell_edit(edit: &Edit, out: &mut Vec<u8>) -> Result<(), OutOfMemory>
    ensures spelled { OnOk result (out.new.items ≡ out.old.items ++ edit_bytes RowFormat.Two edit.now) }
    ensures fits { OnOk result (HasValues RowFormat.Two edit.now) }
{
    match edit {
        Edit::All(parts) => {
            out.push(0)?;
            let count = parts.len() as u64;
            Field::<Rows>::spell(&count, out)?;
            spell_parts(parts.as_slice(), out)
        }
        Edit::Put(number, thing) => {
            out.push(1)?;
            Field::<Rows>::spell(&thing.kind(), out)?;
            Field::<Rows>::spell(number, out)?;
            spell_thing(thing, out)
        }
        Edit::Gone(kind, number) => {
            out.push(2)?;
            Field::<Rows>::spell(kind, out)?;
            Field::<Rows>::spell(number, out)
        }
        Edit::Currency(currency) => {
            out.push(3)?;
            Field::<Rows>::spell(currency, out)
        }
    }
}

/// Writes the edits, in format 2, behind the bytes, one after another.
#[cycle(spelling)]
fn spell_parts(parts: &[Edit], out: &mut Vec<u8>) -> Result<(), OutOfMemory>
    ensures spelled { OnOk result (out.new.items ≡ out.old.items ++ flat_map (edit_bytes RowFormat.Two) parts.now) }
    ensures fits { OnOk result (AllByRecursion (HasValues RowFormat.Two) parts.now) }
{
    for part in parts {
        spell_edit(part, out)?;
    }
    Ok(())
}

/// The edit whose body in the format these bytes are.
/// Bad: they are no edit's body in it.
pub(crate) fn read_edit(alloc: Global, format: RowFormat, body: &[u8]) -> Result<Edit, DecodeError>
    ensures found { IfOk result (λ edit. body.now ≡ format_byte format ∷ edit_bytes format edit) }
    ensures fits { IfOk result (IsEdit format) }
    ensures again { (edit : Edit) → IsEdit format edit → body.now ≡ format_byte format ∷ edit_bytes format edit
        → Gives (λ x. x) result edit }
{
    let Some(bytes) = behind_format(format_byte(format), body) else {
        return Err(DecodeError::Bad);
    };
    let (edit, left) = match read_within(alloc, format, bytes, MAX_DEPTH) {
        Ok(found) => found,
        Err(error) => return Err(error),
    };
    if !left.is_empty() {
        return Err(DecodeError::Bad);
    }
    Ok(edit)
}

/// Reads an edit of the format at the front of the bytes, at most `most` of whose lists stand in one another, and gives
/// the bytes behind it.
/// Bad: the bytes begin with no such edit.
#[cycle(reading)]
fn read_within(
    alloc: Global,
    format: RowFormat,
    bytes: &[u8],
    most: u32,
) -> Result<(Edit, &[u8]), DecodeError>
    ensures found { IfOk result (λ found. bytes.now ≡ edit_bytes format found.0 ++ found.1.now) }
    ensures fits { IfOk result (λ found. IsEditWithin format most found.0) }
    ensures again { (edit : Edit) (rest : List ℕ) → IsEditWithin format most edit
        → bytes.now ≡ edit_bytes format edit ++ rest
        → Gives {Y = Edit × List ℕ} (λ found. (found.0, found.1.now)) result (edit, rest) }
{
    let [first, rest @ ..] = bytes else {
        return Err(DecodeError::Bad);
    };
    match *first {
        0 => read_list(alloc, format, rest, most),
        1 => read_put(alloc, format, rest),
        2 => read_gone(alloc, rest),
        3 => read_currency(alloc, rest),
        _ => Err(DecodeError::Bad),
    }
}

/// Reads the list of an edit behind its byte 0.
#[cycle(reading)]
fn read_list(
    alloc: Global,
    format: RowFormat,
    bytes: &[u8],
    most: u32,
) -> Result<(Edit, &[u8]), DecodeError>
    ensures found { IfOk result (λ found. 0 ∷ bytes.now ≡ edit_bytes format found.0 ++ found.1.now) }
    ensures fits { IfOk result (λ found. IsEditWithin format most found.0) }
    ensures again { (edit : Edit) (rest : List ℕ) → IsEditWithin format most edit
        → 0 ∷ bytes.now ≡ edit_bytes format edit ++ rest
        → Gives {Y = Edit × List ℕ} (λ found. (found.0, found.1.now)) result (edit, rest) }
{
    let Some(less) = most.checked_sub(1) else {
        return Err(DecodeError::Bad);
    };
    let (count, rest) = match <u64 as Field<Rows>>::read(alloc, bytes) {
        Ok(found) => found,
        Err(error) => return Err(error),
    };
    match read_parts(alloc, format, count, rest, less) {
        Ok((parts, rest)) => Ok((Edit::All(parts), rest)),
        Err(error) => Err(error),
    }
}

/// Reads so many edits. Memory is taken for a part when it has been read, and not by the count.
#[cycle(reading)]
fn read_parts(
    alloc: Global,
    format: RowFormat,
    count: u64,
    bytes: &[u8],
    most: u32,
) -> Result<(Many<Edit>, &[u8]), DecodeError>
    ensures count { IfOk result (λ found. length found.0 ≡ count) }
    ensures found { IfOk result (λ found. bytes.now ≡ flat_map (edit_bytes format) found.0 ++ found.1.now) }
    ensures fits { IfOk result (λ found. AllByRecursion (IsEditWithin format most) found.0) }
    ensures again { (parts : List Edit) (rest : List ℕ) → AllByRecursion (IsEditWithin format most) parts
        → length parts ≡ count → bytes.now ≡ flat_map (edit_bytes format) parts ++ rest
        → Gives {Y = List Edit × List ℕ} (λ found. (found.0, found.1.now)) result (parts, rest) }
{
    let mut parts = Many::new(alloc);
    let mut rest = bytes;
    for _place in 0..count {
        let (part, left) = match read_within(alloc, format, rest, most) {
            Ok(found) => found,
            Err(error) => return Err(error),
        };
        let Ok(()) = parts.push(part) else {
            return Err(DecodeError::OutOfMemory);
        };
        rest = left;
    }
    Ok((parts, rest))
}

/// Reads the number and the thing of an edit behind its byte 1.
#[tactic(auto, unfolding(crate::specs::EditBytes::edit_bytes))]
fn read_put(alloc: Global, format: RowFormat, bytes: &[u8]) -> Result<(Edit, &[u8]), DecodeError>
    ensures found { IfOk result (λ found. 1 ∷ bytes.now ≡ edit_bytes format found.0 ++ found.1.now) }
    ensures fits { IfOk result (λ found. IsEditWithin format 0 found.0) }
    ensures again { (edit : Edit) (rest : List ℕ) → HasValues format edit
        → 1 ∷ bytes.now ≡ edit_bytes format edit ++ rest
        → Gives {Y = Edit × List ℕ} (λ found. (found.0, found.1.now)) result (edit, rest) }
{
    let ((kind, number), rest) = match <(ThingKind, u64) as Field<Rows>>::read(alloc, bytes) {
        Ok(found) => found,
        Err(error) => return Err(error),
    };
    match read_thing(alloc, format, kind, rest) {
        Ok((thing, rest)) => Ok((Edit::Put(number, thing), rest)),
        Err(error) => Err(error),
    }
}

/// Reads the kind and the number of an edit behind its byte 2.
#[tactic(auto, unfolding(crate::specs::EditBytes::edit_bytes))]
fn read_gone(alloc: Global, bytes: &[u8]) -> Result<(Edit, &[u8]), DecodeError>
    ensures found { (format : RowFormat) → IfOk result (λ found.
        2 ∷ bytes.now ≡ edit_bytes format found.0 ++ found.1.now) }
    ensures fits { (format : RowFormat) → IfOk result (λ found. IsEditWithin format 0 found.0) }
    ensures again { (format : RowFormat) (edit : Edit) (rest : List ℕ) → HasValues format edit
        → 2 ∷ bytes.now ≡ edit_bytes format edit ++ rest
        → Gives {Y = Edit × List ℕ} (λ found. (found.0, found.1.now)) result (edit, rest) }
{
    match <(ThingKind, u64) as Field<Rows>>::read(alloc, bytes) {
        Ok(((kind, number), rest)) => Ok((Edit::Gone(kind, number), rest)),
        Err(error) => Err(error),
    }
}

/// Reads the currency of an edit behind its byte 3.
#[tactic(auto, unfolding(crate::specs::EditBytes::edit_bytes))]
fn read_currency(alloc: Global, bytes: &[u8]) -> Result<(Edit, &[u8]), DecodeError>
    ensures found { (format : RowFormat) → IfOk result (λ found.
        3 ∷ bytes.now ≡ edit_bytes format found.0 ++ found.1.now) }
    ensures fits { (format : RowFormat) → IfOk result (λ found. IsEditWithin format 0 found.0) }
    ensures again { (format : RowFormat) (edit : Edit) (rest : List ℕ) → HasValues format edit
        → 3 ∷ bytes.now ≡ edit_bytes format edit ++ rest
        → Gives {Y = Edit × List ℕ} (λ found. (found.0, found.1.now)) result (edit, rest) }
{
    match <u64 as Field<Rows>>::read(alloc, bytes) {
        Ok((currency, rest)) => Ok((Edit::Currency(currency), rest)),
        Err(error) => Err(error),
    }
}
