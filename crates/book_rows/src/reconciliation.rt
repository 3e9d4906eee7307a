ghost use Rattle.std.specs.Prelude.{◌≡◌, ◌++◌, OnOk};
ghost use Rattle.book_rows.specs.ReconciliationBytes.{IsMarkedSplit, marked_split_bytes, IsRecon, recon_bytes};
ghost use Rattle.book_rows.specs.ReconciliationBytes.{marked_split_made};
ghost use Rattle.book_rows.specs.ReconciliationBytes.{recon_made};

use crate::Rows;
use book_codec::{DecodeError, Field};
use book_commodity::{Day, Many, OutOfMemory};
use book_splits::{MarkedSplit, Recon};
use std::alloc::Global;

/// The fields of a marked split, in the order of their bytes.
type MarkedSplitFields = (u64, i64);

/// A marked split: its number and its quantity.
impl Field<Rows> for MarkedSplit {
    ghost fits = { IsMarkedSplit };

    ghost spelling = { marked_split_bytes };

    fn spell(&self, out: &mut Vec<u8>) -> Result<(), OutOfMemory> {
        Field::<Rows>::spell(&self.split, out)?;
        Field::<Rows>::spell(&self.quantity, out)
    }

    fn read(alloc: Global, bytes: &[u8]) -> Result<(MarkedSplit, &[u8]), DecodeError> {
        let (fields, rest) = match <MarkedSplitFields as Field<Rows>>::read(alloc, bytes) {
            Ok(found) => found,
            Err(error) => return Err(error),
        };
        Ok((marked_split_of(fields), rest))
    }
}

/// The marked split whose fields these are.
fn marked_split_of(fields: MarkedSplitFields) -> MarkedSplit
    ensures { result ≡ marked_split_made fields }
{
    let (split, quantity) = fields;
    MarkedSplit { split, quantity }
}

/// The fields of a reconciliation, in the order of their bytes.
type ReconFields = (u64, (Day, (i128, (i64, Many<MarkedSplit>))));

/// A reconciliation: its account, its day, its two balances and its marked splits.
impl Field<Rows> for Recon {
    ghost fits = { IsRecon };

    ghost spelling = { recon_bytes };

    fn spell(&self, out: &mut Vec<u8>) -> Result<(), OutOfMemory> {
        Field::<Rows>::spell(&self.account, out)?;
        Field::<Rows>::spell(&self.day, out)?;
        Field::<Rows>::spell(&self.opening, out)?;
        Field::<Rows>::spell(&self.closing, out)?;
        Field::<Rows>::spell(&self.marked, out)
    }

    fn read(alloc: Global, bytes: &[u8]) -> Result<(Recon, &[u8]), DecodeError> {
        let (fields, rest) = match <ReconFields as Field<Rows>>::read(alloc, bytes) {
            Ok(found) => found,
            Err(error) => return Err(error),
        };
        Ok((recon_of(fields), rest))
    }
}

/// The reconciliation whose fields these are.
fn recon_of(fields: ReconFields) -> Recon
    ensures { result ≡ recon_made fields }
{
    let (account, (day, (opening, (closing, marked)))) = fields;
    Recon {
        account,
        day,
        opening,
        closing,
        marked,
    }
}
