use crate::Form;
use crate::keep::{add_amount, add_memo, begin_split, keep_amount, keep_date, keep_text};
use crate::kind::Code;
use crate::splits::Splits;
use book_commodity::{Day, Text};
use book_statement::ReadError;
use std::alloc::Global;

/// What the lines of an entry say so far; the first line of each code counts. Amounts are in smallest units.
#[derive(Drop)]
pub struct Said {
    pub day: Option<Day>,
    pub total: Option<i64>,
    pub other_total: Option<i64>,
    pub number: Option<Text>,
    pub payee: Option<Text>,
    pub memo: Option<Text>,
    pub category: Option<Text>,
    pub splits: Splits,
}

impl Said {
    ghost use Rattle.std.specs.Prelude.{◌≡◌, None};
    ghost use Rattle.book_statement.specs.Currencies.{IsFraction};
    ghost use Rattle.qif_read.specs.Kept.{total_said};
    ghost use Rattle.qif_read.specs.Steps.{Takes, nothing, line_fault, after_line, after_account_line};

    /// What an entry says before its first line.
    pub fn nothing(alloc: Global) -> Said
        ensures { result ≡ nothing }
    {
        Said {
            day: None,
            total: None,
            other_total: None,
            number: None,
            payee: None,
            memo: None,
            category: None,
            splits: Splits::new(alloc),
        }
    }

    /// The amount of the entry: its `T`, or else its `U`.
    pub fn total(&self) -> Option<i64>
        ensures { result ≡ total_said self.now }
    {
        self.total.or(self.other_total)
    }

    /// Takes a line of an entry of a register.
    pub fn take(
        &mut self,
        alloc: Global,
        form: &Form,
        line: u64,
        code: Code,
        text: &str,
    ) -> Result<(), ReadError>
        requires { IsFraction form.now.fraction }
        ensures { Takes (line_fault form.now self.old line code text.now) (after_line form.now self.old code text.now)
            self.new result }
    {
        match code {
            Code::Date => keep_date(&mut self.day, form, line, text),
            Code::Total => keep_amount(&mut self.total, form, line, text),
            Code::OtherTotal => keep_amount(&mut self.other_total, form, line, text),
            Code::Number => keep_text(&mut self.number, alloc, text),
            Code::Payee => keep_text(&mut self.payee, alloc, text),
            Code::Memo => keep_text(&mut self.memo, alloc, text),
            Code::Category => keep_text(&mut self.category, alloc, text),
            Code::Split => begin_split(&mut self.splits, alloc, text),
            Code::SplitMemo => add_memo(&mut self.splits, alloc, line, text),
            Code::SplitAmount => add_amount(&mut self.splits, form, line, text),
            Code::Other => Ok(()),
        }
    }

    /// Takes a line of an entry of a list of accounts, of which only the name is kept.
    pub fn take_name(&mut self, alloc: Global, code: Code, text: &str) -> Result<(), ReadError>
        ensures { Takes None (after_account_line self.old code text.now) self.new result }
    {
        match code {
            Code::Number => keep_text(&mut self.number, alloc, text),
            _ => Ok(()),
        }
    }
}
