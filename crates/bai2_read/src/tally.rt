ghost use Rattle.std.specs.Prelude.{◌≡◌, ◌+◌, List, [], ◌∷◌, ◌++◌, pos, ◌+ℤ◌, IfOk, if◌then◌else◌};
ghost use Rattle.bai2_read.specs.Kept.{sums_in};
ghost use Rattle.bai2_read.specs.Kinds.{counts_anew};
ghost use Rattle.bai2_read.specs.Records.{Record};
ghost use Rattle.bai2_read.specs.Said.{amount_in, part_in, sums_of};

use crate::amounts::{amount, total};
use crate::fields::field;
use crate::kind::Kind;
use crate::pending::Pending;
use crate::summaries::sum_of_items;
use crate::sums::{count_on, plus};
use book_commodity::OutOfMemory;
use book_statement::Level;

/// The sums of an account, a group or a file so far: its control total, the number of its accounts or groups, and the
/// number of its record lines.
#[derive(Clone, Copy, Debug, PartialEq, Eq)]
pub struct Tally {
    pub total: i128,
    pub parts: u64,
    pub records: u64,
}

impl Tally {
    /// The sums of no records.
    pub fn none() -> Tally
        ensures { result ≡ record { total = pos 0; parts = 0; records = 0 } }
    {
        Tally {
            total: 0,
            parts: 0,
            records: 0,
        }
    }

    /// With one record more.
    fn with(self, total: i128, parts: u64, records: u64) -> Result<Tally, OutOfMemory>
        ensures { IfOk result (λ sums. sums ≡ record {
          total = self.total +ℤ total;
          parts = self.parts + parts;
          records = self.records + records;
        }) }
    {
        Ok(Tally {
            total: plus(self.total, total)?,
            parts: count_on(self.parts, parts)?,
            records: count_on(self.records, records)?,
        })
    }

    /// The sums of a level with this record behind the others.
    pub fn next(self, level: Level, entry: &Pending) -> Result<Tally, OutOfMemory>
        ensures { IfOk result (λ sums. (before : List Record) → sums_in self ≡ sums_of level before
            → sums_in sums ≡ sums_of level (before ++ entry.now ∷ [])) }
    {
        let kind = entry.kind();
        let total = amount_in(level, kind, entry.body().as_bytes());
        let start = self.empty_if(counts_anew(level, kind));
        start.with(total, part_in(level, kind), entry.lines())
    }

    /// Itself, or the sums of no records where something begins anew.
    fn empty_if(self, anew: bool) -> Tally
        ensures { result ≡ (if anew then record { total = pos 0; parts = 0; records = 0 } else self) }
    {
        if anew { Tally::none() } else { self }
    }
}

/// Whether the records of an account, a group or a file are counted anew from a record of this kind on.
fn counts_anew(level: Level, kind: Kind) -> bool
    ensures { result ≡ counts_anew level kind }
{
    match level {
        Level::Account => matches!(
            kind,
            Kind::FileHeader | Kind::GroupHeader | Kind::AccountHeader | Kind::AccountTrailer
        ),
        Level::Group => matches!(kind, Kind::FileHeader | Kind::GroupHeader),
        Level::File => matches!(kind, Kind::FileHeader),
    }
}

/// What a record adds to the control total of a level.
fn amount_in(level: Level, kind: Kind, body: &[u8]) -> i128
    ensures { result ≡ amount_in level kind body.now }
{
    match (level, kind) {
        (Level::Account, Kind::AccountHeader) => sum_of_items(body),
        (Level::Account, Kind::Detail) => amount(field(body, 1)) as i128,
        (Level::Group, Kind::AccountTrailer) | (Level::File, Kind::GroupTrailer) => {
            total(field(body, 0)) as i128
        }
        _ => 0,
    }
}

/// What a record adds to the number of accounts of a group, or of groups of a file.
fn part_in(level: Level, kind: Kind) -> u64
    ensures { result ≡ part_in level kind }
{
    match (level, kind) {
        (Level::Group, Kind::AccountHeader) | (Level::File, Kind::GroupHeader) => 1,
        _ => 0,
    }
}
