ghost use Rattle.std.specs.Prelude.{◌≡◌, IfOk};
ghost use Rattle.book_undo.specs.Thing.{kind_of, row_kind};

use crate::Schedule;
use book_accounts::Account;
use book_commodity::{Commodity, OutOfMemory};
use book_prices::Price;
use book_splits::{Recon, Txn};
use book_statement::{Binding, Held, Line};
use std::alloc::Global;

/// A thing of a book, which stands there under a number.
#[derive(Drop)]
pub enum Thing {
    Commodity(Commodity),
    Account(Account),
    Txn(Txn),
    Price(Price),
    Schedule(Schedule),
    Held(Held),
    Line(Line),
    Binding(Binding),
    Recon(Recon),
}

/// The kinds of things.
#[derive(Clone, Copy, Debug, PartialEq, Eq)]
pub enum ThingKind {
    Commodity,
    Account,
    Txn,
    Price,
    Schedule,
    Held,
    Line,
    Binding,
    Recon,
}

impl ThingKind {
    /// The number of the kind, 2 to 10, which is that of its rows.
    pub fn row_kind(self) -> u64
        ensures { result ≡ row_kind self }
    {
        match self {
            ThingKind::Commodity => 2,
            ThingKind::Account => 3,
            ThingKind::Txn => 4,
            ThingKind::Price => 5,
            ThingKind::Schedule => 6,
            ThingKind::Held => 7,
            ThingKind::Line => 8,
            ThingKind::Binding => 9,
            ThingKind::Recon => 10,
        }
    }
}

impl Thing {
    /// The kind of the thing.
    pub fn kind(&self) -> ThingKind
        ensures { result ≡ kind_of self.now }
    {
        match self {
            Thing::Commodity(_) => ThingKind::Commodity,
            Thing::Account(_) => ThingKind::Account,
            Thing::Txn(_) => ThingKind::Txn,
            Thing::Price(_) => ThingKind::Price,
            Thing::Schedule(_) => ThingKind::Schedule,
            Thing::Held(_) => ThingKind::Held,
            Thing::Line(_) => ThingKind::Line,
            Thing::Binding(_) => ThingKind::Binding,
            Thing::Recon(_) => ThingKind::Recon,
        }
    }

    /// An equal thing with memory of its own.
    pub fn copy(&self, alloc: Global) -> Result<Thing, OutOfMemory>
        ensures { IfOk result (λ copy. copy ≡ self.now) }
    {
        Ok(match self {
            Thing::Commodity(commodity) => Thing::Commodity(commodity.copy()?),
            Thing::Account(account) => Thing::Account(account.copy()?),
            Thing::Txn(transaction) => Thing::Txn(transaction.copy()?),
            Thing::Price(price) => Thing::Price(*price),
            Thing::Schedule(schedule) => Thing::Schedule(schedule.copy()?),
            Thing::Held(statement) => Thing::Held(statement.copy()?),
            Thing::Line(line) => Thing::Line(line.copy()?),
            Thing::Binding(binding) => Thing::Binding(binding.copy()?),
            Thing::Recon(reconciliation) => Thing::Recon(reconciliation.copy(alloc)?),
        })
    }
}
