ghost use Rattle.std.specs.Prelude.{◌≡◌, ◌+◌, ◌≤◌, IfOk, is_some, []};
ghost use Rattle.book_undo.specs.Book.{book_of, empty_book, IsRising, thing_at, with_thing, without_thing};
ghost use Rattle.book_undo.specs.Room.{one_of, spare_of};
ghost use Rattle.book_undo.specs.Thing.{kind_of};

use crate::{Schedule, Thing, ThingKind};
use book_accounts::Tree;
use book_commodity::{Commodities, OutOfMemory, Table};
use book_prices::Prices;
use book_splits::{Recon, Txns};
use book_statement::{Binding, Held, Line};
use std::alloc::Global;

/// A whole book as plain tables by number, and its currency.
#[derive(Drop)]
pub struct Plain {
    pub commodities: Commodities,
    pub accounts: Tree,
    pub transactions: Txns,
    pub prices: Prices,
    pub schedules: Table<Schedule>,
    pub statements: Table<Held>,
    pub lines: Table<Line>,
    pub bindings: Table<Binding>,
    pub reconciliations: Table<Recon>,
    pub currency: u64,
}

impl Plain {
    /// The book with nothing in it; it takes no memory.
    pub fn new(alloc: Global, currency: u64) -> Plain
        ensures { book_of result ≡ empty_book currency }
    {
        Plain {
            commodities: Commodities::new(alloc),
            accounts: Tree::new(alloc),
            transactions: Txns::new(alloc),
            prices: Prices::new(alloc),
            schedules: Table::new(alloc),
            statements: Table::new(alloc),
            lines: Table::new(alloc),
            bindings: Table::new(alloc),
            reconciliations: Table::new(alloc),
            currency,
        }
    }

    /// Puts the thing under the number.
    pub(crate) fn put(&mut self, number: u64, thing: Thing)
        requires { 1 ≤ spare_of (kind_of thing) self.old }
        ensures book { book_of self.new ≡ with_thing number thing (book_of self.old) }
        ensures spare { (kind : _)
            → spare_of kind self.old ≤ spare_of kind self.new + one_of kind (kind_of thing) }
    {
        match thing {
            Thing::Commodity(commodity) => {
                drop(self.commodities.put(number, commodity));
            }
            Thing::Account(account) => {
                drop(self.accounts.put(number, account));
            }
            Thing::Txn(transaction) => {
                drop(self.transactions.put(number, transaction));
            }
            Thing::Price(price) => {
                drop(self.prices.put(number, price));
            }
            Thing::Schedule(schedule) => {
                drop(self.schedules.put(number, schedule));
            }
            Thing::Held(statement) => {
                drop(self.statements.put(number, statement));
            }
            Thing::Line(line) => {
                drop(self.lines.put(number, line));
            }
            Thing::Binding(binding) => {
                drop(self.bindings.put(number, binding));
            }
            Thing::Recon(reconciliation) => {
                drop(self.reconciliations.put(number, reconciliation));
            }
        }
    }

    /// Takes the thing of this kind under the number out of the book, where there is one.
    pub(crate) fn take(&mut self, kind: ThingKind, number: u64)
        ensures book { book_of self.new ≡ without_thing kind number (book_of self.old) }
        ensures spare { (other : _) → spare_of other self.old ≤ spare_of other self.new }
    {
        match kind {
            ThingKind::Commodity => {
                drop(self.commodities.take(number));
            }
            ThingKind::Account => {
                drop(self.accounts.take(number));
            }
            ThingKind::Txn => {
                drop(self.transactions.take(number));
            }
            ThingKind::Price => {
                drop(self.prices.take(number));
            }
            ThingKind::Schedule => {
                drop(self.schedules.take(number));
            }
            ThingKind::Held => {
                drop(self.statements.take(number));
            }
            ThingKind::Line => {
                drop(self.lines.take(number));
            }
            ThingKind::Binding => {
                drop(self.bindings.take(number));
            }
            ThingKind::Recon => {
                drop(self.reconciliations.take(number));
            }
        }
    }

    /// Whether a thing of this kind stands under the number.
    pub(crate) fn has(&self, kind: ThingKind, number: u64) -> bool
        ensures { result ≡ is_some (thing_at kind number (book_of self.now)) }
    {
        match kind {
            ThingKind::Commodity => self.commodities.find(number).is_some(),
            ThingKind::Account => self.accounts.find(number).is_some(),
            ThingKind::Txn => self.transactions.find(number).is_some(),
            ThingKind::Price => self.prices.find(number).is_some(),
            ThingKind::Schedule => self.schedules.find(number).is_some(),
            ThingKind::Held => self.statements.find(number).is_some(),
            ThingKind::Line => self.lines.find(number).is_some(),
            ThingKind::Binding => self.bindings.find(number).is_some(),
            ThingKind::Recon => self.reconciliations.find(number).is_some(),
        }
    }

    /// A copy of the thing of this kind under the number; `None` where there is none.
    pub(crate) fn thing(
        &self,
        alloc: Global,
        kind: ThingKind,
        number: u64,
    ) -> Result<Option<Thing>, OutOfMemory>
        ensures { IfOk result (λ found. found ≡ thing_at kind number (book_of self.now)) }
    {
        Ok(match kind {
            ThingKind::Commodity => match self.commodities.find(number) {
                Some(commodity) => Some(Thing::Commodity(commodity.copy()?)),
                None => None,
            },
            ThingKind::Account => match self.accounts.find(number) {
                Some(account) => Some(Thing::Account(account.copy()?)),
                None => None,
            },
            ThingKind::Txn => match self.transactions.find(number) {
                Some(transaction) => Some(Thing::Txn(transaction.copy()?)),
                None => None,
            },
            ThingKind::Price => match self.prices.find(number) {
                Some(price) => Some(Thing::Price(*price)),
                None => None,
            },
            ThingKind::Schedule => match self.schedules.find(number) {
                Some(schedule) => Some(Thing::Schedule(schedule.copy()?)),
                None => None,
            },
            ThingKind::Held => match self.statements.find(number) {
                Some(statement) => Some(Thing::Held(statement.copy()?)),
                None => None,
            },
            ThingKind::Line => match self.lines.find(number) {
                Some(line) => Some(Thing::Line(line.copy()?)),
                None => None,
            },
            ThingKind::Binding => match self.bindings.find(number) {
                Some(binding) => Some(Thing::Binding(binding.copy()?)),
                None => None,
            },
            ThingKind::Recon => match self.reconciliations.find(number) {
                Some(reconciliation) => Some(Thing::Recon(reconciliation.copy(alloc)?)),
                None => None,
            },
        })
    }

    /// The numbers of each table rise.
    pub(crate) fn rising(&self)
        ensures { IsRising (book_of self.now) }
    {
        let _ = self.commodities.len();
        let _ = self.accounts.len();
        let _ = self.transactions.len();
        let _ = self.prices.len();
        let _ = self.schedules.len();
        let _ = self.statements.len();
        let _ = self.lines.len();
        let _ = self.bindings.len();
        let _ = self.reconciliations.len();
    }
}
