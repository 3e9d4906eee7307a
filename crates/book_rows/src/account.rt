ghost use Rattle.std.specs.Prelude.{◌≡◌, ◌++◌, Some, OnOk, IfSome, IfNone};
ghost use Rattle.book_rows.specs.AccountBytes.{IsAccountKind, account_kind_bytes, IsAccount, account_bytes};
ghost use Rattle.book_rows.specs.AccountBytes.{account_made};
ghost use Rattle.book_rows.specs.AccountBytes.{place_of_account_kind, account_rest, IsAccountRest};

use crate::Rows;
use book_accounts::{Account, AccountKind};
use book_codec::{DecodeError, Field};
use book_commodity::{OutOfMemory, Text};
use std::alloc::Global;

/// A kind of account as one byte: its place in the list of them, from 1.
impl Field<Rows> for AccountKind {
    ghost fits = { IsAccountKind };

    ghost spelling = { account_kind_bytes };

    fn spell(&self, out: &mut Vec<u8>) -> Result<(), OutOfMemory> {
        out.push(place_of_account_kind(*self))?;
        Ok(())
    }

    fn read(_alloc: Global, bytes: &[u8]) -> Result<(AccountKind, &[u8]), DecodeError> {
        let [place, rest @ ..] = bytes else {
            return Err(DecodeError::Bad);
        };
        match account_kind_at(*place) {
            Some(variant) => Ok((variant, rest)),
            None => Err(DecodeError::Bad),
        }
    }
}

/// The place of a kind of account in the list of them, from 1.
fn place_of_account_kind(variant: AccountKind) -> u8
    ensures { result ≡ place_of_account_kind variant }
{
    match variant {
        AccountKind::Root => 1,
        AccountKind::Asset => 2,
        AccountKind::Bank => 3,
        AccountKind::Cash => 4,
        AccountKind::Credit => 5,
        AccountKind::Liability => 6,
        AccountKind::Stock => 7,
        AccountKind::Mutual => 8,
        AccountKind::Receivable => 9,
        AccountKind::Payable => 10,
        AccountKind::Income => 11,
        AccountKind::Expense => 12,
        AccountKind::Equity => 13,
    }
}

/// The kind of account at a place of the list of them, from 1; None where there is no such place.
fn account_kind_at(place: u8) -> Option<AccountKind>
    ensures found { IfSome result (λ variant. place ≡ place_of_account_kind variant) }
    ensures none { IfNone result ((variant : AccountKind) → place ≡ place_of_account_kind variant → ⊥) }
    ensures again { (variant : AccountKind) → place ≡ place_of_account_kind variant → result ≡ Some variant }
{
    match place {
        1 => Some(AccountKind::Root),
        2 => Some(AccountKind::Asset),
        3 => Some(AccountKind::Bank),
        4 => Some(AccountKind::Cash),
        5 => Some(AccountKind::Credit),
        6 => Some(AccountKind::Liability),
        7 => Some(AccountKind::Stock),
        8 => Some(AccountKind::Mutual),
        9 => Some(AccountKind::Receivable),
        10 => Some(AccountKind::Payable),
        11 => Some(AccountKind::Income),
        12 => Some(AccountKind::Expense),
        13 => Some(AccountKind::Equity),
        _ => None,
    }
}

/// The fields of an account, in the order of their bytes.
type AccountFields = (
    Text,
    (
        AccountKind,
        (
            u64,
            (Option<u64>, (Text, (Text, (bool, (bool, Option<u64>))))),
        ),
    ),
);

/// An account: its name, its kind, its commodity, its parent, its code, its note, whether it is hidden, whether it
/// is a placeholder, and its basis.
impl Field<Rows> for Account {
    ghost fits = { IsAccount };

    ghost spelling = { account_bytes };

    fn spell(&self, out: &mut Vec<u8>) -> Result<(), OutOfMemory> {
        Field::<Rows>::spell(&self.name, out)?;
        Field::<Rows>::spell(&self.kind, out)?;
        Field::<Rows>::spell(&self.commodity, out)?;
        Field::<Rows>::spell(&self.parent, out)?;
        spell_account_rest(self, out)
    }

    fn read(alloc: Global, bytes: &[u8]) -> Result<(Account, &[u8]), DecodeError> {
        let (fields, rest) = match <AccountFields as Field<Rows>>::read(alloc, bytes) {
            Ok(found) => found,
            Err(error) => return Err(error),
        };
        Ok((account_of(fields), rest))
    }
}

/// Writes the bytes of the fields from `code` on.
fn spell_account_rest(it: &Account, out: &mut Vec<u8>) -> Result<(), OutOfMemory>
    ensures spelled { OnOk result (out.new.items ≡ out.old.items ++ account_rest it.now) }
    ensures fits { OnOk result (IsAccountRest it.now) }
{
    Field::<Rows>::spell(&it.code, out)?;
    Field::<Rows>::spell(&it.note, out)?;
    Field::<Rows>::spell(&it.hidden, out)?;
    Field::<Rows>::spell(&it.placeholder, out)?;
    Field::<Rows>::spell(&it.basis, out)
}

/// The account whose fields these are.
fn account_of(fields: AccountFields) -> Account
    ensures { result ≡ account_made fields }
{
    let (name, (kind, (commodity, (parent, (code, (note, (hidden, (placeholder, basis)))))))) =
        fields;
    Account {
        name,
        kind,
        commodity,
        parent,
        code,
        note,
        hidden,
        placeholder,
        basis,
    }
}
