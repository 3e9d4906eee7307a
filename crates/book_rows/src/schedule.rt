ghost use Rattle.std.specs.Prelude.{◌≡◌, ◌++◌, List, ℕ, Some, IfOk, OnOk, IfSome, IfNone};
ghost use Rattle.book_codec.specs.Read.{Gives};
ghost use Rattle.book_rows.specs.declared.format.RowFormat.TheVariants.{Two};
ghost use Rattle.book_rows.specs.ScheduleBytes.{IsRecurrenceKind, recurrence_kind_bytes, IsAdjust};
ghost use Rattle.book_rows.specs.ScheduleBytes.{adjust_bytes, IsEnd, end_bytes};
ghost use Rattle.book_rows.specs.ScheduleBytes.{IsRecurrence, recurrence_bytes, IsTiming, timing_bytes};
ghost use Rattle.book_rows.specs.ScheduleBytes.{IsSchedule, schedule_bytes};
ghost use Rattle.book_rows.specs.ScheduleBytes.{recurrence_made, timing_made, schedule_made};
ghost use Rattle.book_rows.specs.ScheduleBytes.{place_of_recurrence_kind, place_of_adjust};

use crate::transaction::read_txn;
use crate::{RowFormat, Rows};
use book_codec::{DecodeError, Field};
use book_commodity::{Day, Many, OutOfMemory, Text};
use book_schedule::{Adjust, End, Recurrence, RecurrenceKind, Timing};
use book_splits::Txn;
use book_undo::Schedule;
use std::alloc::Global;

/// A kind of recurrence as one byte: its place in the list of them, from 1.
impl Field<Rows> for RecurrenceKind {
    ghost fits = { IsRecurrenceKind };

    ghost spelling = { recurrence_kind_bytes };

    fn spell(&self, out: &mut Vec<u8>) -> Result<(), OutOfMemory> {
        out.push(place_of_recurrence_kind(*self))?;
        Ok(())
    }

    fn read(_alloc: Global, bytes: &[u8]) -> Result<(RecurrenceKind, &[u8]), DecodeError> {
        let [place, rest @ ..] = bytes else {
            return Err(DecodeError::Bad);
        };
        match recurrence_kind_at(*place) {
            Some(variant) => Ok((variant, rest)),
            None => Err(DecodeError::Bad),
        }
    }
}

/// The place of a kind of recurrence in the list of them, from 1.
fn place_of_recurrence_kind(variant: RecurrenceKind) -> u8
    ensures { result ≡ place_of_recurrence_kind variant }
{
    match variant {
        RecurrenceKind::Once => 1,
        RecurrenceKind::Daily => 2,
        RecurrenceKind::Weekly => 3,
        RecurrenceKind::Monthly => 4,
        RecurrenceKind::EndOfMonth => 5,
        RecurrenceKind::NthWeekday => 6,
        RecurrenceKind::LastWeekday => 7,
        RecurrenceKind::Yearly => 8,
    }
}

/// The kind of recurrence at a place of the list of them, from 1; None where there is no such place.
fn recurrence_kind_at(place: u8) -> Option<RecurrenceKind>
    ensures found { IfSome result (λ variant. place ≡ place_of_recurrence_kind variant) }
    ensures none { IfNone result ((variant : RecurrenceKind) → place ≡ place_of_recurrence_kind variant → ⊥) }
    ensures again { (variant : RecurrenceKind) → place ≡ place_of_recurrence_kind variant → result ≡ Some variant }
{
    match place {
        1 => Some(RecurrenceKind::Once),
        2 => Some(RecurrenceKind::Daily),
        3 => Some(RecurrenceKind::Weekly),
        4 => Some(RecurrenceKind::Monthly),
        5 => Some(RecurrenceKind::EndOfMonth),
        6 => Some(RecurrenceKind::NthWeekday),
        7 => Some(RecurrenceKind::LastWeekday),
        8 => Some(RecurrenceKind::Yearly),
        _ => None,
    }
}

/// An adjustment as one byte: its place in the list of them, from 1.
impl Field<Rows> for Adjust {
    ghost fits = { IsAdjust };

    ghost spelling = { adjust_bytes };

    fn spell(&self, out: &mut Vec<u8>) -> Result<(), OutOfMemory> {
        out.push(place_of_adjust(*self))?;
        Ok(())
    }

    fn read(_alloc: Global, bytes: &[u8]) -> Result<(Adjust, &[u8]), DecodeError> {
        let [place, rest @ ..] = bytes else {
            return Err(DecodeError::Bad);
        };
        match adjust_at(*place) {
            Some(variant) => Ok((variant, rest)),
            None => Err(DecodeError::Bad),
        }
    }
}

/// The place of an adjustment in the list of them, from 1.
fn place_of_adjust(variant: Adjust) -> u8
    ensures { result ≡ place_of_adjust variant }
{
    match variant {
        Adjust::Nothing => 1,
        Adjust::Back => 2,
        Adjust::Forward => 3,
    }
}

/// The adjustment at a place of the list of them, from 1; None where there is no such place.
fn adjust_at(place: u8) -> Option<Adjust>
    ensures found { IfSome result (λ variant. place ≡ place_of_adjust variant) }
    ensures none { IfNone result ((variant : Adjust) → place ≡ place_of_adjust variant → ⊥) }
    ensures again { (variant : Adjust) → place ≡ place_of_adjust variant → result ≡ Some variant }
{
    match place {
        1 => Some(Adjust::Nothing),
        2 => Some(Adjust::Back),
        3 => Some(Adjust::Forward),
        _ => None,
    }
}

/// The end of a schedule: the byte 1 for never; 2 and the last day; or 3 and the number of occurrences.
impl Field<Rows> for End {
    ghost fits = { IsEnd };

    ghost spelling = { end_bytes };

    fn spell(&self, out: &mut Vec<u8>) -> Result<(), OutOfMemory> {
        match self {
            End::Never => {
                out.push(1)?;
                Ok(())
            }
            End::Until(value) => {
                out.push(2)?;
                Field::<Rows>::spell(value, out)
            }
            End::After(value) => {
                out.push(3)?;
                Field::<Rows>::spell(value, out)
            }
        }
    }

    fn read(alloc: Global, bytes: &[u8]) -> Result<(End, &[u8]), DecodeError> {
        match bytes {
            [1, rest @ ..] => Ok((End::Never, rest)),
            [2, rest @ ..] => match <Day as Field<Rows>>::read(alloc, rest) {
                Ok((value, rest)) => Ok((End::Until(value), rest)),
                Err(error) => Err(error),
            },
            [3, rest @ ..] => match <u64 as Field<Rows>>::read(alloc, rest) {
                Ok((value, rest)) => Ok((End::After(value), rest)),
                Err(error) => Err(error),
            },
            _ => Err(DecodeError::Bad),
        }
    }
}

/// The fields of a recurrence, in the order of their bytes.
type RecurrenceFields = (RecurrenceKind, (u32, (Day, Adjust)));

/// A recurrence: its kind, its step, its start and its adjustment.
impl Field<Rows> for Recurrence {
    ghost fits = { IsRecurrence };

    ghost spelling = { recurrence_bytes };

    fn spell(&self, out: &mut Vec<u8>) -> Result<(), OutOfMemory> {
        Field::<Rows>::spell(&self.kind, out)?;
        Field::<Rows>::spell(&self.every, out)?;
        Field::<Rows>::spell(&self.start, out)?;
        Field::<Rows>::spell(&self.adjust, out)
    }

    fn read(alloc: Global, bytes: &[u8]) -> Result<(Recurrence, &[u8]), DecodeError> {
        let (fields, rest) = match <RecurrenceFields as Field<Rows>>::read(alloc, bytes) {
            Ok(found) => found,
            Err(error) => return Err(error),
        };
        Ok((recurrence_of(fields), rest))
    }
}

/// The recurrence whose fields these are.
fn recurrence_of(fields: RecurrenceFields) -> Recurrence
    ensures { result ≡ recurrence_made fields }
{
    let (kind, (every, (start, adjust))) = fields;
    Recurrence {
        kind,
        every,
        start,
        adjust,
    }
}

/// The fields of a timing, in the order of their bytes.
type TimingFields = (Many<Recurrence>, (End, (u32, (Option<Day>, u64))));

/// A timing: its recurrences, its end, the days in advance, the last day made and the number made.
impl Field<Rows> for Timing {
    ghost fits = { IsTiming };

    ghost spelling = { timing_bytes };

    fn spell(&self, out: &mut Vec<u8>) -> Result<(), OutOfMemory> {
        Field::<Rows>::spell(&self.recurrences, out)?;
        Field::<Rows>::spell(&self.end, out)?;
        Field::<Rows>::spell(&self.advance, out)?;
        Field::<Rows>::spell(&self.last, out)?;
        Field::<Rows>::spell(&self.made, out)
    }

    fn read(alloc: Global, bytes: &[u8]) -> Result<(Timing, &[u8]), DecodeError> {
        let (fields, rest) = match <TimingFields as Field<Rows>>::read(alloc, bytes) {
            Ok(found) => found,
            Err(error) => return Err(error),
        };
        Ok((timing_of(fields), rest))
    }
}

/// The timing whose fields these are.
fn timing_of(fields: TimingFields) -> Timing
    ensures { result ≡ timing_made fields }
{
    let (recurrences, (end, (advance, (last, made)))) = fields;
    Timing {
        recurrences,
        end,
        advance,
        last,
        made,
    }
}

/// A schedule in format 2: its name, its timing, and its template as a transaction.
impl Field<Rows> for Schedule {
    ghost fits = { IsSchedule Two };

    ghost spelling = { schedule_bytes Two };

    fn spell(&self, out: &mut Vec<u8>) -> Result<(), OutOfMemory> {
        Field::<Rows>::spell(&self.name, out)?;
        Field::<Rows>::spell(&self.timing, out)?;
        Field::<Rows>::spell(&self.template, out)
    }

    fn read(alloc: Global, bytes: &[u8]) -> Result<(Schedule, &[u8]), DecodeError> {
        read_schedule(alloc, RowFormat::Two, bytes)
    }
}

/// The fields of a schedule before its template, in the order of their bytes.
type ScheduleFields = (Text, Timing);

/// Reads a schedule of the format at the front of the bytes, and gives the bytes behind it.
/// Bad: the bytes begin with none.
pub(crate) fn read_schedule(
    alloc: Global,
    format: RowFormat,
    bytes: &[u8],
) -> Result<(Schedule, &[u8]), DecodeError>
    ensures found { IfOk result (λ found. bytes.now ≡ schedule_bytes format found.0 ++ found.1.now) }
    ensures fits { IfOk result (λ found. IsSchedule format found.0) }
    ensures again { (it : Schedule) (rest : List ℕ) → IsSchedule format it
        → bytes.now ≡ schedule_bytes format it ++ rest
        → Gives {Y = Schedule × List ℕ} (λ found. (found.0, found.1.now)) result (it, rest) }
{
    let (fields, behind) = match <ScheduleFields as Field<Rows>>::read(alloc, bytes) {
        Ok(found) => found,
        Err(error) => return Err(error),
    };
    let (template, rest) = match read_txn(alloc, format, behind) {
        Ok(found) => found,
        Err(error) => return Err(error),
    };
    Ok((schedule_of(fields, template), rest))
}

/// The schedule with these fields and this template.
fn schedule_of(fields: ScheduleFields, template: Txn) -> Schedule
    ensures { result ≡ schedule_made (fields, template) }
{
    let (name, timing) = fields;
    Schedule {
        name,
        timing,
        template,
    }
}
