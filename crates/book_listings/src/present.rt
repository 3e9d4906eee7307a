ghost use Rattle.std.specs.Prelude.{◌≡◌, All, IfOk, IfSome, IsSome, length};
ghost use Rattle.std.specs.Option.{option_copied};
ghost use Rattle.book_accounts.specs.Order.{depth_first};
ghost use Rattle.book_accounts.specs.Path.{path};
ghost use Rattle.book_commodity.specs.Table.{value_of};
ghost use Rattle.book_export.specs.Export.{HasExported, HasFault};
ghost use Rattle.book_ledger.specs.Ledger.{Keeps, register_of};
ghost use Rattle.book_reports.specs.Measure.{CanBeSummed, commodity_of, fraction_of, name_of};
ghost use Rattle.book_sound.specs.Soundness.{IsSoundBook};
ghost use Rattle.book_splits.specs.Balance.{balance, splits_of};
ghost use Rattle.book_listings.specs.Schedules.{AreTimed};
ghost use Rattle.book_undo.specs.Book.{book_of};

use book_commodity::{Many, OutOfMemory, Text};
use book_export::{ExportError, export};
use book_keeper::Sink;
use book_ledger::Registers;
use book_prices::Prices;
use book_register::Register;
use book_splits::Txn;
use book_undo::{Plain, Schedule};
use std::alloc::Global;
use std::marker::Model;

/// The present book of a file, which is sound, with the registers of its accounts. Contracts see the book.
#[derive(Drop)]
pub struct PresentBook {
    plain: Plain,
    registers: Registers,
}

impl Model for PresentBook {
    ghost use Rattle.book_ledger.specs.Ledger.{Keeps};
    ghost use Rattle.book_sound.specs.Soundness.{IsSoundBook};
    ghost use Rattle.book_undo.specs.Book.{Book, book_of};

    ghost Value = { Book };

    ghost view = { λ p. book_of p.plain };

    ghost invariant = { λ p. IsSoundBook (book_of p.plain) × Keeps p.registers.entries (book_of p.plain) };
}

impl PresentBook {
    /// A sound book with its registers.
    pub fn of(plain: Plain, registers: Registers) -> PresentBook
        requires sound { IsSoundBook (book_of plain) }
        requires kept { Keeps registers.entries (book_of plain) }
        ensures { result ≡ book_of plain }
    {
        PresentBook { plain, registers }
    }

    /// The tables of the book.
    pub(crate) fn plain(&self) -> &Plain
        ensures { book_of result.now ≡ self.now }
    {
        let _ = &self.registers;
        &self.plain
    }

    /// Writes the book as a journal, piece by piece.
    /// Memory: the program is out of memory; what was written is the front of the journal. Output: the output failed;
    /// a part was written, and not all.
    pub fn write_to<O: Sink>(&self, alloc: Global, output: &mut O) -> Result<(), ExportError>
        ensures written { HasExported (O.written output.old) (O.written output.new) self.now result }
        ensures faults { HasFault (O.faults output.old) (O.faults output.new) result }
    {
        let _ = &self.registers;
        export(alloc, &self.plain, output)
    }

    /// The transaction with a number, if there is one. Where it is voided, as many amounts are kept as it has splits.
    pub(crate) fn transaction(&self, number: u64) -> Option<&Txn>
        ensures found { option_copied result ≡ value_of number self.now.transactions }
        ensures kept { IfSome result (λ it. IfSome it.now.voided (λ void. length void.kept ≡ length it.now.splits)) }
    {
        let _ = &self.registers;
        self.plain.transactions.find(number)
    }

    /// How many splits all transactions have together.
    pub(crate) fn split_count(&self) -> u64
        ensures { result ≡ length (splits_of self.now.transactions) }
    {
        let _ = &self.registers;
        self.plain.transactions.count_splits()
    }

    /// The prices of the book.
    pub(crate) fn prices(&self) -> &Prices
        ensures { result.now.entries ≡ self.now.prices }
    {
        let _ = &self.registers;
        &self.plain.prices
    }

    /// The schedules of the book, by number. Each of their recurrences steps on.
    pub(crate) fn schedules(&self) -> &[(u64, Schedule)]
        ensures schedules { result.now ≡ self.now.schedules }
        ensures timed { AreTimed result.now }
    {
        let _ = &self.registers;
        self.plain.schedules.as_slice()
    }

    /// The numbers of the accounts, in the order of their tree.
    pub(crate) fn order(&self) -> Result<Many<u64>, OutOfMemory>
        ensures order { IfOk result (λ order. order ≡ depth_first self.now.accounts) }
        ensures there { IfOk result (All (λ account. IsSome (value_of account self.now.accounts))) }
    {
        let _ = &self.registers;
        self.plain.accounts.order()
    }

    /// The path of an account of the book.
    pub(crate) fn path(&self, account: u64) -> Result<Text, OutOfMemory>
        requires { IsSome (value_of account self.now.accounts) }
        ensures { IfOk result (λ text. text ≡ path self.now.accounts account) }
    {
        let _ = &self.registers;
        self.plain.accounts.path_of(account)
    }

    /// How many smallest units make one unit of a commodity.
    pub(crate) fn fraction(&self, commodity: u64) -> u64
        ensures { result ≡ fraction_of self.now.commodities commodity }
    {
        let _ = &self.registers;
        match self.plain.commodities.find(commodity) {
            Some(commodity) => commodity.fraction,
            None => 1,
        }
    }

    /// The name of a commodity.
    pub(crate) fn name(&self, commodity: u64) -> &str
        ensures { result.now ≡ name_of self.now.commodities commodity }
    {
        let _ = &self.registers;
        match self.plain.commodities.find(commodity) {
            Some(commodity) => commodity.name.as_str(),
            None => "",
        }
    }

    /// The commodity of an account; 0, where there is no such account.
    pub(crate) fn commodity_of(&self, account: u64) -> u64
        ensures { result ≡ commodity_of self.now account }
    {
        let _ = &self.registers;
        match self.plain.accounts.find(account) {
            Some(account) => account.commodity,
            None => 0,
        }
    }

    /// The register of an account of the book.
    pub(crate) fn register(&self, account: u64) -> &Register
        requires { IsSome (value_of account self.now.accounts) }
        ensures rows { result.now.rows ≡ register_of account self.now.transactions }
        ensures summed { CanBeSummed result.now.rows }
    {
        let Some(register) = self.registers.register(&self.plain.accounts, account) else {
            unreachable!()
        };
        register
    }

    /// The balance of an account over all days, in smallest units of its commodity.
    pub(crate) fn balance(&self, account: u64) -> i128
        ensures { result ≡ balance self.now.transactions account }
    {
        let _ = &self.plain;
        self.registers.balance(account)
    }
}
