ghost use Rattle.std.specs.Prelude.{◌≡◌, ◌++◌, IfOk, OnOk, string_bytes};
ghost use Rattle.book_reports.specs.Income.{csv_parts, days, heading, income, net, parts_left_out, parts_of};
ghost use Rattle.book_reports.specs.Income.{plain_parts};

use crate::layout::{add_day, add_printed};
use crate::lines::{
    Lines, add_amount, add_csv_amount, add_csv_header, add_csv_left_out, add_left_out,
};
use crate::period::Period;
use crate::section::Section;
use crate::{Form, View};
use book_commodity::{Day, OutOfMemory, Text};
use std::alloc::{AllocError, Global};

/// The lines of the report of income and expenses by its sections.
#[derive(Drop)]
struct Parts {
    income: Lines,
    expenses: Lines,
}

/// The report of income and expenses of a book from one day to another, in the currency of the book.
#[tactic(auto, unfolding(crate::specs::Income::income))]
pub fn income(
    alloc: Global,
    view: &View,
    from: Day,
    to: Day,
    form: Form,
) -> Result<Text, OutOfMemory>
    ensures { IfOk result (λ text. text ≡ income view.now from to form) }
{
    let parts = Parts::of(alloc, view, &Period::between(from, to))?;
    let fraction = view.fraction(view.plain.currency);
    let mut out = String::new(alloc);
    match form {
        Form::Plain => {
            add_heading(&mut out, view, from, to)?;
            parts.add_plain(alloc, &mut out, fraction)?;
        }
        Form::Csv => {
            add_csv_header(alloc, &mut out)?;
            parts.add_csv(alloc, &mut out, fraction)?;
        }
    }
    Ok(Text::of(out))
}

/// Adds the heading: the two days and the name of the currency.
fn add_heading(out: &mut String, view: &View, from: Day, to: Day) -> Result<(), OutOfMemory>
    ensures { OnOk result (string_bytes out.new ≡ string_bytes out.old ++ heading view.now from to) }
{
    out.push_str("Income and expenses ")?;
    add_days(out, from, to)?;
    add_printed(out, view.name(view.plain.currency))?;
    out.push('\n')?;
    Ok(())
}

/// Adds the two days, with a space behind each.
#[tactic(auto, unfolding(crate::specs::Income::days))]
fn add_days(out: &mut String, from: Day, to: Day) -> Result<(), AllocError>
    ensures { OnOk result (string_bytes out.new ≡ string_bytes out.old ++ days from to) }
{
    add_day(out, from)?;
    out.push(' ')?;
    add_day(out, to)?;
    out.push(' ')
}

impl Parts {
    /// The lines over a period.
    #[tactic(auto, unfolding(crate::specs::Sections::lines_of))]
    fn of(alloc: Global, view: &View, period: &Period) -> Result<Parts, OutOfMemory>
        ensures { IfOk result (λ parts. parts ≡ parts_of view.now period.now) }
    {
        let order = view.order()?;
        let order = order.as_slice();
        Ok(Parts {
            income: Lines::of(alloc, view, order, period, Section::Income)?,
            expenses: Lines::of(alloc, view, order, period, Section::Expenses)?,
        })
    }

    /// Income less expenses.
    fn net(&self) -> i128
        ensures { result ≡ net self.now }
    {
        self.income.sum() - self.expenses.sum()
    }

    /// How many accounts are left out of the sums.
    fn left_out(&self) -> usize
        ensures { result ≡ parts_left_out self.now }
    {
        self.income.left_out() + self.expenses.left_out()
    }

    /// Adds the sections and the figures below them as plain text.
    fn add_plain(&self, alloc: Global, out: &mut String, fraction: u64) -> Result<(), OutOfMemory>
        ensures { OnOk result (string_bytes out.new ≡ string_bytes out.old ++ plain_parts fraction self.now) }
    {
        self.income
            .add_plain(alloc, out, fraction, Section::Income)?;
        self.expenses
            .add_plain(alloc, out, fraction, Section::Expenses)?;
        add_amount(alloc, out, self.net(), fraction, "Net")?;
        add_left_out(alloc, out, self.left_out())
    }

    /// Adds the sections and the figures below them as comma-separated values.
    fn add_csv(&self, alloc: Global, out: &mut String, fraction: u64) -> Result<(), OutOfMemory>
        ensures { OnOk result (string_bytes out.new ≡ string_bytes out.old ++ csv_parts fraction self.now) }
    {
        self.income.add_csv(alloc, out, fraction, Section::Income)?;
        self.expenses
            .add_csv(alloc, out, fraction, Section::Expenses)?;
        add_csv_amount(alloc, out, self.net(), fraction, "Net")?;
        add_csv_left_out(alloc, out, self.left_out())
    }
}
