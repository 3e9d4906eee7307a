use crate::days::{day_in, first_day};
use crate::details::{detail_amount, line_of};
use crate::fields::field_text;
use crate::kind::Kind;
use crate::pending::Pending;
use crate::statements::statement_with;
use crate::tally::Tally;
use crate::texts::copy_of;
use book_commodity::{Day, Many, OutOfMemory, Text};
use book_statement::{Level, Statement, StatementLine};
use std::alloc::Global;
use std::mem;

/// What the records so far say, for the checks of the next one and for the statements.
#[derive(Drop)]
pub struct Context {
    /// The kind of the last record; `Blank` before the first.
    pub place: Kind,
    /// The file identification, which is the number of the statements.
    pub number: Text,
    /// The as-of date of the group.
    pub day: Day,
    /// The currency of the group; empty where it gives none.
    pub currency: Text,
    /// The fields of the account's header.
    pub account: Text,
    /// The lines of the account.
    pub lines: Many<StatementLine>,
    pub of_account: Tally,
    pub of_group: Tally,
    pub of_file: Tally,
    pub statements: Many<Statement>,
}

impl Context {
    ghost use Rattle.std.specs.Prelude.{◌≡◌, List, [], ◌∷◌, ◌++◌, IfOk, if◌then◌else◌};
    ghost use Rattle.book_statement.specs.declared.level.Level.TheVariants.{Account};
    ghost use Rattle.bai2_read.specs.Details.{lines_of_detail};
    ghost use Rattle.bai2_read.specs.Kept.{said_in};
    ghost use Rattle.bai2_read.specs.Kinds.{counts_anew, is_account_header, is_account_trailer, is_file_header};
    ghost use Rattle.bai2_read.specs.Kinds.{is_group_header};
    ghost use Rattle.bai2_read.specs.Records.{Record};
    ghost use Rattle.bai2_read.specs.Said.{lines_in, said_by};
    ghost use Rattle.bai2_read.specs.Statements.{currency_in, day_in, number_in, statement_with};

    /// Before the first record.
    pub fn new(alloc: Global) -> Context
        ensures { said_in result ≡ said_by [] }
    {
        Context {
            place: Kind::Blank,
            number: Text::new(alloc),
            day: first_day(),
            currency: Text::new(alloc),
            account: Text::new(alloc),
            lines: Many::new(alloc),
            of_account: Tally::none(),
            of_group: Tally::none(),
            of_file: Tally::none(),
            statements: Many::new(alloc),
        }
    }

    /// Adds what a record says behind the others.
    pub fn keep(&mut self, alloc: Global, entry: Pending) -> Result<(), OutOfMemory>
        ensures { IfOk result (λ _. (before : List Record) → said_in self.old ≡ said_by before
            → said_in self.new ≡ said_by (before ++ entry ∷ [])) }
    {
        let of_account = self.of_account.next(Level::Account, &entry)?;
        let of_group = self.of_group.next(Level::Group, &entry)?;
        let of_file = self.of_file.next(Level::File, &entry)?;
        self.keep_said(alloc, entry)?;
        self.of_account = of_account;
        self.of_group = of_group;
        self.of_file = of_file;
        Ok(())
    }

    /// Adds what a record says, its sums aside.
    fn keep_said(&mut self, alloc: Global, entry: Pending) -> Result<(), OutOfMemory>
        ensures { IfOk result (λ _. self.new ≡ record self.old {
          place = entry.kind;
          number = if is_file_header entry.kind then number_in entry.body else self.old.number;
          day = if is_group_header entry.kind then day_in entry.body else self.old.day;
          currency = if is_group_header entry.kind then currency_in entry.body else self.old.currency;
          account = if is_account_header entry.kind then entry.body else self.old.account;
          lines = if counts_anew Account entry.kind
              then []
              else self.old.lines ++ lines_in self.old.day entry.kind entry.body entry.text;
          statements = self.old.statements
              ++ (if is_account_trailer entry.kind
              then statement_with self.old.number self.old.day self.old.currency self.old.account self.old.lines ∷ []
              else []);
        }) }
    {
        self.place = entry.kind();
        match entry.kind() {
            Kind::FileHeader => {
                self.number = copy_of(alloc, field_text(entry.body(), 4))?;
                self.lines = Many::new(alloc);
            }
            Kind::GroupHeader => {
                self.day = day_in(entry.body().as_bytes());
                self.currency = copy_of(alloc, field_text(entry.body(), 5))?;
                self.lines = Many::new(alloc);
            }
            Kind::AccountHeader => {
                self.account = entry.into_body();
                self.lines = Many::new(alloc);
            }
            Kind::Detail => self.keep_line(alloc, entry.body(), entry.text())?,
            Kind::AccountTrailer => self.keep_statement(alloc)?,
            _ => {}
        }
        Ok(())
    }

    /// Adds the line that a detail gives, if it gives one.
    fn keep_line(&mut self, alloc: Global, body: &str, more: &str) -> Result<(), OutOfMemory>
        ensures { IfOk result (λ _. self.new ≡ record self.old {
          lines = self.old.lines ++ lines_of_detail self.old.day body.now more.now;
        }) }
    {
        if let Some(given) = detail_amount(body.as_bytes()) {
            let line = line_of(alloc, self.day, body, more, given)?;
            self.lines.push(line)?;
        }
        Ok(())
    }

    /// Adds the statement of the account, which is complete; its lines move there.
    fn keep_statement(&mut self, alloc: Global) -> Result<(), OutOfMemory>
        ensures { IfOk result (λ _. self.new ≡ record self.old {
          lines = [];
          statements = self.old.statements
              ++ statement_with self.old.number self.old.day self.old.currency self.old.account self.old.lines ∷ [];
        }) }
    {
        let lines = mem::replace(&mut self.lines, Many::new(alloc));
        let currency = self.currency.as_str();
        let account = self.account.as_str();
        let statement = statement_with(alloc, &self.number, self.day, currency, account, lines)?;
        self.statements.push(statement)?;
        Ok(())
    }
}
