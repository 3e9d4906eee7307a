ghost use Rattle.std.specs.Prelude.{◌≡◌, ◌++◌, OnOk};
ghost use Rattle.book_rows.specs.HeadBytes.{IsHead, head_bytes, head_made, head_rest, IsHeadRest};

use crate::Rows;
use book_codec::{DecodeError, Field};
use book_commodity::OutOfMemory;
use std::alloc::Global;

/// The head of a book's rows: the next number and the version, how many steps lead from the fresh book to the present
/// one, how many of them and of the steps taken back are kept, and the book's currency.
#[derive(Clone, Copy, Debug, PartialEq, Eq)]
pub struct Head {
    pub next: u64,
    pub version: u64,
    pub position: u64,
    pub past: u64,
    pub later: u64,
    pub currency: u64,
}

/// The fields of a head, in the order of their bytes.
type HeadFields = (u64, (u64, (u64, (u64, (u64, u64)))));

/// A head: the next number, the version, the position, the counts of steps before and later, and the currency.
impl Field<Rows> for Head {
    ghost fits = { IsHead };

    ghost spelling = { head_bytes };

    fn spell(&self, out: &mut Vec<u8>) -> Result<(), OutOfMemory> {
        Field::<Rows>::spell(&self.next, out)?;
        Field::<Rows>::spell(&self.version, out)?;
        Field::<Rows>::spell(&self.position, out)?;
        Field::<Rows>::spell(&self.past, out)?;
        spell_head_rest(self, out)
    }

    fn read(alloc: Global, bytes: &[u8]) -> Result<(Head, &[u8]), DecodeError> {
        let (fields, rest) = match <HeadFields as Field<Rows>>::read(alloc, bytes) {
            Ok(found) => found,
            Err(error) => return Err(error),
        };
        Ok((head_of(fields), rest))
    }
}

/// Writes the bytes of the fields from `later` on.
fn spell_head_rest(it: &Head, out: &mut Vec<u8>) -> Result<(), OutOfMemory>
    ensures spelled { OnOk result (out.new.items ≡ out.old.items ++ head_rest it.now) }
    ensures fits { OnOk result (IsHeadRest it.now) }
{
    Field::<Rows>::spell(&it.later, out)?;
    Field::<Rows>::spell(&it.currency, out)
}

/// The head whose fields these are.
fn head_of(fields: HeadFields) -> Head
    ensures { result ≡ head_made fields }
{
    let (next, (version, (position, (past, (later, currency))))) = fields;
    Head {
        next,
        version,
        position,
        past,
        later,
        currency,
    }
}
