ghost use Rattle.std.specs.Prelude.{◌≡◌, ◌≤◌, ◌^◌, All, IfOk, IfSome, IsSome, length, unsigned_abs};
ghost use Rattle.std.specs.Int.{IsInRange};
ghost use Rattle.book_accounts.specs.Order.{depth_first};
ghost use Rattle.book_accounts.specs.Path.{path};
ghost use Rattle.book_commodity.specs.Table.{value_of};
ghost use Rattle.book_ledger.specs.Ledger.{Keeps, register_of};
ghost use Rattle.book_lots.specs.Lots.{IsSmall};
ghost use Rattle.book_limits.specs.Limits.{largest_sum};
ghost use Rattle.book_reports.specs.Sections.{amount_in};
ghost use Rattle.book_reports.specs.Measure.{CanBeSummed, commodity_of, fraction_of, name_of, sum_in, worth};
ghost use Rattle.book_reports.specs.RegisterText.{description_in, number_in};
ghost use Rattle.book_sound.specs.Soundness.{IsSoundBook};
ghost use Rattle.book_undo.specs.Book.{book_of};

use crate::period::Period;
use book_commodity::{Day, Many, OutOfMemory, Text};
use book_ledger::Registers;
use book_lots::Lots;
use book_prices::{Valuation, worth};
use book_register::Register;
use book_undo::Plain;
use std::marker::Model;

/// A sound book with the registers of its accounts, as a report reads it. Contracts see the book.
#[derive(Drop)]
pub struct View<'a> {
    pub(crate) plain: &'a Plain,
    registers: &'a Registers,
}

impl<'a> Model for View<'a> {
    ghost use Rattle.book_ledger.specs.Ledger.{Keeps};
    ghost use Rattle.book_sound.specs.Soundness.{IsSoundBook};
    ghost use Rattle.book_undo.specs.Book.{Book, book_of};

    ghost Value = { Book };

    ghost view = { λ v. book_of v.plain.now };

    ghost invariant = { λ v. IsSoundBook (book_of v.plain.now)
        × Keeps v.registers.now.entries (book_of v.plain.now) };
}

impl<'a> View<'a> {
    /// The view of a sound book whose registers are kept.
    pub fn of(plain: &'a Plain, registers: &'a Registers) -> View<'a>
        requires sound { IsSoundBook (book_of plain.now) }
        requires kept { Keeps registers.now.entries (book_of plain.now) }
        ensures { result ≡ book_of plain.now }
    {
        View { plain, registers }
    }

    /// The numbers of the accounts, in the order of their tree.
    pub(crate) fn order(&self) -> Result<Many<u64>, OutOfMemory>
        ensures order { IfOk result (λ order. order ≡ depth_first self.now.accounts) }
        ensures few { IfOk result (λ order. length order ≤ 10000) }
        ensures there { IfOk result (All (λ account. IsSome (value_of account self.now.accounts))) }
    {
        self.plain.accounts.order()
    }

    /// The path of an account of the book.
    pub(crate) fn path(&self, account: u64) -> Result<Text, OutOfMemory>
        requires { IsSome (value_of account self.now.accounts) }
        ensures { IfOk result (λ text. text ≡ path self.now.accounts account) }
    {
        self.plain.accounts.path_of(account)
    }

    /// How many smallest units make one unit of a commodity.
    pub(crate) fn fraction(&self, commodity: u64) -> u64
        ensures fraction { result ≡ fraction_of self.now.commodities commodity }
        ensures range { IsInRange 1 1_000_000_000 result }
    {
        match self.plain.commodities.find(commodity) {
            Some(commodity) => commodity.fraction,
            None => 1,
        }
    }

    /// The name of a commodity.
    pub(crate) fn name(&self, commodity: u64) -> &str
        ensures { result.now ≡ name_of self.now.commodities commodity }
    {
        match self.plain.commodities.find(commodity) {
            Some(commodity) => commodity.name.as_str(),
            None => "",
        }
    }

    /// The commodity of an account; 0, where there is no such account.
    pub(crate) fn commodity_of(&self, account: u64) -> u64
        ensures { result ≡ commodity_of self.now account }
    {
        match self.plain.accounts.find(account) {
            Some(account) => account.commodity,
            None => 0,
        }
    }

    /// The number that a person gave a transaction.
    pub(crate) fn number_of(&self, transaction: u64) -> &str
        ensures { result.now ≡ number_in self.now.transactions transaction }
    {
        match self.plain.transactions.find(transaction) {
            Some(transaction) => transaction.num.as_str(),
            None => "",
        }
    }

    /// The description of a transaction.
    pub(crate) fn description_of(&self, transaction: u64) -> &str
        ensures { result.now ≡ description_in self.now.transactions transaction }
    {
        match self.plain.transactions.find(transaction) {
            Some(transaction) => transaction.description.as_str(),
            None => "",
        }
    }

    /// The register of an account of the book.
    pub(crate) fn register(&self, account: u64) -> &Register
        requires { IsSome (value_of account self.now.accounts) }
        ensures rows { result.now.rows ≡ register_of account self.now.transactions }
        ensures summed { CanBeSummed result.now.rows }
        ensures sound { IsSoundBook self.now }
    {
        let Some(register) = self.registers.register(&self.plain.accounts, account) else {
            unreachable!()
        };
        register
    }

    /// The lots of an account of the book, where they are kept up to its register.
    pub(crate) fn lots(&self, account: u64) -> Option<&Lots>
        requires { IsSome (value_of account self.now.accounts) }
        ensures entries { IfSome result (λ lots. lots.now.entries ≡ register_of account self.now.transactions) }
        ensures small { IfSome result (λ lots. All IsSmall lots.now.entries) }
    {
        let rows = self.register(account).len();
        let lots = self.registers.lots(account)?;
        if lots.reckoned() < rows {
            return None;
        }
        Some(lots)
    }

    /// What an account changes by in a period.
    #[tactic(auto, unfolding(crate::specs::Measure::sum_in))]
    pub(crate) fn sum(&self, account: u64, period: &Period) -> i128
        requires { IsSome (value_of account self.now.accounts) }
        ensures sum { result ≡ sum_in self.now period.now account }
        ensures small { unsigned_abs result ≤ largest_sum }
    {
        period.sum_in(self.register(account))
    }

    /// What an amount of a commodity is worth on a day in the currency of the book.
    pub(crate) fn worth(&self, day: Day, commodity: u64, amount: i128) -> Valuation
        requires { unsigned_abs amount ≤ largest_sum }
        ensures worth { result ≡ worth self.now day commodity amount }
        ensures small { unsigned_abs (amount_in result) ≤ 10 ^ 30 }
    {
        let currency = self.plain.currency;
        let rate = self.plain.prices.price_at(commodity, currency, day);
        worth(
            amount,
            rate,
            self.fraction(commodity),
            self.fraction(currency),
        )
    }
}
