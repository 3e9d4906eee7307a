use crate::Form;
use crate::line::{opening_account, statement_line};
use crate::said::Said;
use book_commodity::{Day, Many, OutOfMemory, Text};
use book_statement::{Statement, StatementLine};
use std::alloc::Global;

/// What a register gives so far: the name of its account, its opening balance in smallest units, the latest day of its
/// entries, which is there once it has one, and its lines.
#[derive(Drop)]
pub struct Section {
    pub account: Text,
    pub opening: Option<i64>,
    pub day: Option<Day>,
    pub lines: Many<StatementLine>,
}

impl Section {
    ghost use Rattle.std.specs.Prelude.{◌≡◌, Some, false, true, IfOk, OnOk, MatchOption, option_to_list};
    ghost use Rattle.qif_read.specs.Kept.{account_said, total_said};
    ghost use Rattle.qif_read.specs.Sections.{no_entries, statements_in};
    ghost use Rattle.qif_read.specs.Steps.{later, opens, with_entry, with_line, with_opening};

    /// A register without an entry, of an account with this name.
    pub fn new(alloc: Global, account: Text) -> Section
        ensures { result ≡ no_entries account }
    {
        Section {
            account,
            opening: None,
            day: None,
            lines: Many::new(alloc),
        }
    }

    /// The account that an entry names in brackets, where the entry gives the opening balance: it is the first.
    pub fn opening_account<'a>(&self, said: &'a Said) -> Option<&'a str>
        ensures { MatchOption result (opens self.now said.now ≡ false)
            (λ account. (opens self.now said.now ≡ true) × (account.now ≡ account_said said.now)) }
    {
        if self.day.is_some() {
            return None;
        }
        opening_account(self.account.as_str(), said)
    }

    /// Takes an entry, of which the day and the amount are these.
    pub fn add(
        &mut self,
        alloc: Global,
        said: Said,
        day: Day,
        amount: i64,
    ) -> Result<(), OutOfMemory>
        requires day { said.day ≡ Some day }
        requires amount { total_said said ≡ Some amount }
        ensures { OnOk result (self.new ≡ with_entry self.old said) }
    {
        match self.opening_account(&said) {
            Some(account) => self.set_opening(alloc, account, day, amount),
            None => self.add_line(day, statement_line(alloc, said, day, amount)?),
        }
    }

    /// Takes the opening balance.
    fn set_opening(
        &mut self,
        alloc: Global,
        account: &str,
        day: Day,
        amount: i64,
    ) -> Result<(), OutOfMemory>
        ensures { OnOk result (self.new ≡ with_opening self.old account.now day amount) }
    {
        self.account = Text::of(String::from_str(alloc, account)?);
        self.opening = Some(amount);
        self.day = Some(self.later(day));
        Ok(())
    }

    /// Takes a line.
    fn add_line(&mut self, day: Day, line: StatementLine) -> Result<(), OutOfMemory>
        ensures { OnOk result (self.new ≡ with_line self.old day line) }
    {
        self.lines.push(line)?;
        self.day = Some(self.later(day));
        Ok(())
    }

    /// The later of the latest day so far and another one.
    fn later(&self, day: Day) -> Day
        ensures { result ≡ later self.now.day day }
    {
        match self.day {
            Some(last) if day < last => last,
            _ => day,
        }
    }

    /// The statement of a register with an entry.
    pub fn into_statement(
        self,
        alloc: Global,
        form: &Form,
    ) -> Result<Option<Statement>, OutOfMemory>
        ensures { IfOk result (λ statement. option_to_list statement ≡ statements_in form.now self) }
    {
        let Section {
            account,
            opening,
            day,
            lines,
        } = self;
        let Some(day) = day else {
            return Ok(None);
        };
        Ok(Some(Statement {
            account_text: account,
            number: Text::new(alloc),
            currency: form.currency.copy()?,
            opening,
            closing: None,
            day,
            ties: None,
            lines,
        }))
    }
}
