ghost use Rattle.std.specs.Prelude.{◌≡◌, IfOk};
ghost use Rattle.book_undo.specs.Book.{book_of};
ghost use Rattle.book_step.specs.State.{euro as euro_is, fresh_book as fresh_book_is, root as root_is};

use book_accounts::{Account, AccountKind};
use book_commodity::{Commodity, OutOfMemory, Text};
use book_undo::Plain;
use std::alloc::Global;

/// The number of the euro.
const EURO: u64 = 1;

/// The number of the root.
const ROOT: u64 = 2;

/// The first number that a thing can get.
pub const FIRST_NUMBER: u64 = 3;

/// The euro.
fn euro(alloc: Global) -> Result<Commodity, OutOfMemory>
    ensures { IfOk result (λ commodity. commodity ≡ euro_is) }
{
    Ok(Commodity {
        space: Text::of(String::from_str(alloc, "CURRENCY")?),
        name: Text::of(String::from_str(alloc, "EUR")?),
        full_name: Text::new(alloc),
        fraction: 100,
    })
}

/// The account that all others stand under.
fn root(alloc: Global) -> Result<Account, OutOfMemory>
    ensures { IfOk result (λ account. account ≡ root_is) }
{
    Ok(Account {
        name: Text::of(String::from_str(alloc, "Root")?),
        kind: AccountKind::Root,
        commodity: EURO,
        parent: None,
        code: Text::new(alloc),
        note: Text::new(alloc),
        hidden: false,
        placeholder: true,
        basis: None,
    })
}

/// The fresh book: the euro and the root.
pub fn fresh_book(alloc: Global) -> Result<Plain, OutOfMemory>
    ensures { IfOk result (λ plain. book_of plain ≡ fresh_book_is) }
{
    let mut plain = Plain::new(alloc, EURO);
    plain.commodities.reserve(1)?;
    drop(plain.commodities.put(EURO, euro(alloc)?));
    plain.accounts.reserve(1)?;
    drop(plain.accounts.put(ROOT, root(alloc)?));
    Ok(plain)
}
