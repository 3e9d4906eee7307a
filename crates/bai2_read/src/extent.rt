ghost use Rattle.std.specs.Prelude.{◌≡◌, ◌++◌, ℕ, List, IfOk};
ghost use Rattle.bai2_read.specs.Extent.{HasExtent, MayHaveExtent};
ghost use Rattle.bai2_read.specs.Details.{is_complete};
ghost use Rattle.bai2_read.specs.Records.{is_full};
ghost use Rattle.bai2_read.specs.declared.kind.Kind.TheVariants.{Detail};
ghost use Rattle.bai2_read.specs.Summaries.{BeginsField};

use crate::details::full_count;
use crate::fields::field_count;
use crate::kind::Kind;
use crate::sums::count_on;
use book_commodity::OutOfMemory;

/// How far the fields of a detail reach. It is kept beside them, since a detail may have many continuations.
#[derive(Clone, Copy, Debug, PartialEq, Eq)]
pub struct Extent {
    /// How many fields there are.
    pub fields: u64,
    /// How many there are up to the customer reference, once there are four.
    pub full: u64,
}

impl Extent {
    /// The extent of these fields; nothing is kept for other records.
    fn of(kind: Kind, body: &[u8]) -> Extent
        ensures { HasExtent kind body.now result.fields result.full }
    {
        if !matches!(kind, Kind::Detail) {
            return Extent { fields: 0, full: 0 };
        }
        let fields = field_count(body) as u64;
        let full = if fields < 4 {
            0
        } else {
            full_count(body) as u64
        };
        Extent { fields, full }
    }

    /// The extent that is kept, or else that of these fields.
    pub fn kept(kept: Option<Extent>, kind: Kind, body: &[u8]) -> Extent
        requires { MayHaveExtent kind body.now kept }
        ensures { HasExtent kind body.now result.fields result.full }
    {
        match kept {
            Some(extent) => extent,
            None => Extent::of(kind, body),
        }
    }

    /// The extent of fields that have these more at their end.
    pub fn grown(self, kind: Kind, body: &[u8], more: &[u8]) -> Result<Extent, OutOfMemory>
        ensures { IfOk result (λ new. (old : List ℕ) → body.now ≡ old ++ more.now → BeginsField more.now
            → HasExtent kind old self.fields self.full → HasExtent kind body.now new.fields new.full) }
    {
        if self.fields < 4 && !more.is_empty() {
            return Ok(Extent::of(kind, body));
        }
        Ok(Extent {
            fields: count_on(self.fields, field_count(more) as u64)?,
            full: self.full,
        })
    }

    /// Whether the fields are those of a detail that reaches its customer reference.
    pub fn is_full(self, kind: Kind) -> bool
        ensures { (body : List ℕ) → HasExtent kind body self.fields self.full → result ≡ is_full kind body }
    {
        match kind {
            Kind::Detail => self.is_complete(),
            _ => false,
        }
    }

    /// Whether the fields of a detail reach its customer reference.
    fn is_complete(self) -> bool
        ensures { (body : List ℕ) → HasExtent Detail body self.fields self.full → result ≡ is_complete body }
    {
        if self.fields < 5 {
            return false;
        }
        self.full <= self.fields
    }
}
