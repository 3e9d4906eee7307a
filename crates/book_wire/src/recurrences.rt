ghost use Rattle.std.specs.Prelude.{◌≡◌, codes};
ghost use Rattle.book_json.specs.Members.{needed, optional};
ghost use Rattle.book_json.specs.Reads.{rest, Gives};
ghost use Rattle.book_wire.specs.Recurrences.{adjust_form, end, end_of, in_32_bits, recurrence, recurrence_kind_form};

use book_commodity::Day;
use book_json::{Fault, Object, Reading};
use book_schedule::{Adjust, End, Recurrence, RecurrenceKind};

/// The words of the kinds of recurrences.
const RECURRENCE_KINDS: [(&str, RecurrenceKind); 8] = [
    ("once", RecurrenceKind::Once),
    ("day", RecurrenceKind::Daily),
    ("week", RecurrenceKind::Weekly),
    ("month", RecurrenceKind::Monthly),
    ("end of month", RecurrenceKind::EndOfMonth),
    ("nth weekday", RecurrenceKind::NthWeekday),
    ("last weekday", RecurrenceKind::LastWeekday),
    ("year", RecurrenceKind::Yearly),
];

/// The words for where a day of the weekend is moved.
const ADJUSTS: [(&str, Adjust); 3] = [
    ("none", Adjust::Nothing),
    ("back", Adjust::Back),
    ("forward", Adjust::Forward),
];

/// The members of a recurrence.
pub(crate) struct GivenRecurrence;

impl Object for GivenRecurrence {
    type Value = Recurrence;

    ghost reader = { recurrence };

    fn read(members: &mut Reading) -> Result<Recurrence, Fault> {
        recurrence(members)
    }
}

/// The members of an end.
pub(crate) struct GivenEnd;

impl Object for GivenEnd {
    type Value = End;

    ghost reader = { end };

    fn read(members: &mut Reading) -> Result<End, Fault> {
        end(members)
    }
}

/// A recurrence.
#[tactic(auto, unfolding(crate::specs::Recurrences::recurrence))]
fn recurrence(members: &mut Reading) -> Result<Recurrence, Fault>
    ensures { Gives (recurrence (rest members.old)) result (rest members.new) }
{
    let kind = recurrence_kind(members)?;
    let every = members.needed("every")?;
    let start = members.needed("start")?;
    let adjust = adjust(members)?;
    Ok(Recurrence {
        kind,
        every: in_32_bits(every),
        start,
        adjust: adjust.unwrap_or(Adjust::Nothing),
    })
}

/// The kind of a recurrence.
#[tactic(auto, unfolding(crate::specs::Recurrences::recurrence_kind_form))]
fn recurrence_kind(members: &mut Reading) -> Result<RecurrenceKind, Fault>
    ensures { Gives (needed recurrence_kind_form (codes "kind") (rest members.old)) result (rest members.new) }
{
    members.word("kind", &RECURRENCE_KINDS)
}

/// Where a recurrence moves a day of the weekend, if it says so.
#[tactic(auto, unfolding(crate::specs::Recurrences::adjust_form))]
fn adjust(members: &mut Reading) -> Result<Option<Adjust>, Fault>
    ensures { Gives (optional adjust_form (codes "adjust") (rest members.old)) result (rest members.new) }
{
    members.optional_word("adjust", &ADJUSTS)
}

/// A number that is kept in 32 bits: a greater one counts as the greatest, which is past each limit too.
pub(crate) fn in_32_bits(number: u64) -> u32
    ensures { result ≡ in_32_bits number }
{
    number.min(u64::from(u32::MAX)) as u32
}

/// An end, by date or after so many occurrences.
#[tactic(auto, unfolding(crate::specs::Recurrences::end))]
fn end(members: &mut Reading) -> Result<End, Fault>
    ensures { Gives (end (rest members.old)) result (rest members.new) }
{
    let until = members.optional("until")?;
    let after = members.optional("after")?;
    end_of(members, until, after)
}

/// The end that has one of the two members.
fn end_of(members: &Reading, until: Option<Day>, after: Option<u64>) -> Result<End, Fault>
    ensures { Gives (end_of until after (rest members.now)) result (rest members.now) }
{
    match (until, after) {
        (Some(last), None) => Ok(End::Until(last)),
        (None, Some(count)) => Ok(End::After(count)),
        _ => Err(members.fault("until")),
    }
}
