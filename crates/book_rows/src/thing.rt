ghost use Rattle.std.specs.Prelude.{◌≡◌, ◌∷◌, ◌++◌, ◌≤◌, List, ℕ, Some, IfOk, OnOk, IfSome, IfNone};
ghost use Rattle.book_codec.specs.Read.{Gives};
ghost use Rattle.book_undo.specs.Thing.{kind_of, row_kind};
ghost use Rattle.book_rows.specs.Format.{format_byte};
ghost use Rattle.book_rows.specs.ThingBytes.{IsThing, IsThingKind, thing_bytes, thing_kind_bytes};

use crate::format::{WRITTEN_FORMAT, format_byte};
use crate::schedule::read_schedule;
use crate::transaction::read_txn;
use crate::{RowFormat, Rows};
use book_accounts::Account;
use book_codec::{DecodeError, Field, behind_format};
use book_commodity::{Bytes, Commodity, OutOfMemory};
use book_prices::Price;
use book_splits::{Recon, Txn};
use book_statement::{Binding, Held, Line};
use book_undo::{Schedule, Thing, ThingKind};
use std::alloc::Global;

/// A kind of things as one byte: the kind of its rows.
impl Field<Rows> for ThingKind {
    ghost fits = { IsThingKind };

    ghost spelling = { thing_kind_bytes };

    fn spell(&self, out: &mut Vec<u8>) -> Result<(), OutOfMemory> {
        out.push(kind_byte(*self))?;
        Ok(())
    }

    fn read(_alloc: Global, bytes: &[u8]) -> Result<(ThingKind, &[u8]), DecodeError> {
        let [byte, rest @ ..] = bytes else {
            return Err(DecodeError::Bad);
        };
        match thing_kind_of(*byte) {
            Some(variant) => Ok((variant, rest)),
            None => Err(DecodeError::Bad),
        }
    }
}

/// The kind of the rows of a kind of things, as a byte.
pub fn kind_byte(kind: ThingKind) -> u8
    ensures { result ≡ row_kind kind }
{
    kind.row_kind() as u8
}

/// The kind of things whose rows have this kind; None where it is that of no things.
pub(crate) fn thing_kind_of(byte: u8) -> Option<ThingKind>
    ensures found { IfSome result (λ variant. byte ≡ row_kind variant) }
    ensures none { IfNone result ((variant : ThingKind) → byte ≡ row_kind variant → ⊥) }
    ensures again { (variant : ThingKind) → byte ≡ row_kind variant → result ≡ Some variant }
{
    match byte {
        2 => Some(ThingKind::Commodity),
        3 => Some(ThingKind::Account),
        4 => Some(ThingKind::Txn),
        5 => Some(ThingKind::Price),
        6 => Some(ThingKind::Schedule),
        7 => Some(ThingKind::Held),
        8 => Some(ThingKind::Line),
        9 => Some(ThingKind::Binding),
        10 => Some(ThingKind::Recon),
        _ => None,
    }
}

/// Writes the fields of the thing, in format 2, behind the bytes.
pub(crate) fn spell_thing(thing: &Thing, out: &mut Vec<u8>) -> Result<(), OutOfMemory>
    ensures spelled { OnOk result (out.new.items ≡ out.old.items ++ thing_bytes RowFormat.Two thing.now) }
    ensures fits { OnOk result (IsThing RowFormat.Two thing.now) }
{
    match thing {
        Thing::Commodity(it) => Field::<Rows>::spell(it, out),
        Thing::Account(it) => Field::<Rows>::spell(it, out),
        Thing::Txn(it) => Field::<Rows>::spell(it, out),
        Thing::Price(it) => Field::<Rows>::spell(it, out),
        Thing::Schedule(it) => Field::<Rows>::spell(it, out),
        Thing::Held(it) => Field::<Rows>::spell(it, out),
        Thing::Line(it) => Field::<Rows>::spell(it, out),
        Thing::Binding(it) => Field::<Rows>::spell(it, out),
        Thing::Recon(it) => Field::<Rows>::spell(it, out),
    }
}

/// The body of the row of a thing, in format 2.
pub fn write_thing(alloc: Global, thing: &Thing) -> Result<Bytes, OutOfMemory>
    ensures body { IfOk result (λ body. body ≡ 2 ∷ thing_bytes RowFormat.Two thing.now) }
    ensures fits { IfOk result (λ body. IsThing RowFormat.Two thing.now) }
{
    let mut out = Vec::new(alloc);
    out.push(WRITTEN_FORMAT)?;
    spell_thing(thing, &mut out)?;
    Ok(Bytes::of(out))
}

/// The thing of a kind whose body in the format these bytes are.
/// Bad: they are the body of no such thing.
pub(crate) fn read_thing_body(
    alloc: Global,
    format: RowFormat,
    kind: ThingKind,
    body: &[u8],
) -> Result<Thing, DecodeError>
    ensures kind { IfOk result (λ thing. kind_of thing ≡ kind) }
    ensures found { IfOk result (λ thing. body.now ≡ format_byte format ∷ thing_bytes format thing) }
    ensures fits { IfOk result (IsThing format) }
    ensures again { (thing : Thing) → kind_of thing ≡ kind → IsThing format thing
        → body.now ≡ format_byte format ∷ thing_bytes format thing → Gives (λ x. x) result thing }
{
    let Some(bytes) = behind_format(format_byte(format), body) else {
        return Err(DecodeError::Bad);
    };
    let (thing, left) = match read_thing(alloc, format, kind, bytes) {
        Ok(found) => found,
        Err(error) => return Err(error),
    };
    if !left.is_empty() {
        return Err(DecodeError::Bad);
    }
    Ok(thing)
}

/// Reads the fields of a thing of the kind, in the format, at the front of the bytes, and gives the bytes behind them.
/// Bad: the bytes begin with no fields of such a thing.
pub(crate) fn read_thing(
    alloc: Global,
    format: RowFormat,
    kind: ThingKind,
    bytes: &[u8],
) -> Result<(Thing, &[u8]), DecodeError>
    ensures kind { IfOk result (λ found. kind_of found.0 ≡ kind) }
    ensures found { IfOk result (λ found. bytes.now ≡ thing_bytes format found.0 ++ found.1.now) }
    ensures fits { IfOk result (λ found. IsThing format found.0) }
    ensures again { (thing : Thing) (rest : List ℕ) → kind_of thing ≡ kind → IsThing format thing
        → bytes.now ≡ thing_bytes format thing ++ rest
        → Gives {Y = Thing × List ℕ} (λ found. (found.0, found.1.now)) result (thing, rest) }
{
    match kind {
        ThingKind::Commodity => match <Commodity as Field<Rows>>::read(alloc, bytes) {
            Ok((it, rest)) => Ok((Thing::Commodity(it), rest)),
            Err(error) => Err(error),
        },
        ThingKind::Account => match <Account as Field<Rows>>::read(alloc, bytes) {
            Ok((it, rest)) => Ok((Thing::Account(it), rest)),
            Err(error) => Err(error),
        },
        ThingKind::Txn => match read_txn(alloc, format, bytes) {
            Ok((it, rest)) => Ok((Thing::Txn(it), rest)),
            Err(error) => Err(error),
        },
        ThingKind::Price => match <Price as Field<Rows>>::read(alloc, bytes) {
            Ok((it, rest)) => Ok((Thing::Price(it), rest)),
            Err(error) => Err(error),
        },
        ThingKind::Schedule => match read_schedule(alloc, format, bytes) {
            Ok((it, rest)) => Ok((Thing::Schedule(it), rest)),
            Err(error) => Err(error),
        },
        ThingKind::Held | ThingKind::Line | ThingKind::Binding | ThingKind::Recon => {
            read_bank_thing(alloc, kind, bytes)
        }
    }
}

/// The same for the kinds that come with statements, which are the same in both formats.
fn read_bank_thing(
    alloc: Global,
    kind: ThingKind,
    bytes: &[u8],
) -> Result<(Thing, &[u8]), DecodeError>
    requires { 7 ≤ row_kind kind }
    ensures kind { IfOk result (λ found. kind_of found.0 ≡ kind) }
    ensures found { (format : RowFormat) → IfOk result (λ found.
        bytes.now ≡ thing_bytes format found.0 ++ found.1.now) }
    ensures fits { (format : RowFormat) → IfOk result (λ found. IsThing format found.0) }
    ensures again { (format : RowFormat) (thing : Thing) (rest : List ℕ) → kind_of thing ≡ kind → IsThing format thing
        → bytes.now ≡ thing_bytes format thing ++ rest
        → Gives {Y = Thing × List ℕ} (λ found. (found.0, found.1.now)) result (thing, rest) }
{
    match kind {
        ThingKind::Held => match <Held as Field<Rows>>::read(alloc, bytes) {
            Ok((it, rest)) => Ok((Thing::Held(it), rest)),
            Err(error) => Err(error),
        },
        ThingKind::Line => match <Line as Field<Rows>>::read(alloc, bytes) {
            Ok((it, rest)) => Ok((Thing::Line(it), rest)),
            Err(error) => Err(error),
        },
        ThingKind::Binding => match <Binding as Field<Rows>>::read(alloc, bytes) {
            Ok((it, rest)) => Ok((Thing::Binding(it), rest)),
            Err(error) => Err(error),
        },
        _ => match <Recon as Field<Rows>>::read(alloc, bytes) {
            Ok((it, rest)) => Ok((Thing::Recon(it), rest)),
            Err(error) => Err(error),
        },
    }
}
