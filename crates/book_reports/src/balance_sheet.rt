ghost use Rattle.std.specs.Prelude.{◌≡◌, ◌++◌, ◌≤◌, ◌^◌, IfOk, OnOk, codes, string_bytes, unsigned_abs};
ghost use Rattle.book_commodity.specs.Amount.{amount_text};
ghost use Rattle.book_reports.specs.Layout.{amount_line};
ghost use Rattle.book_reports.specs.Sections.{csv_summary, section_name, sum_of};
ghost use Rattle.book_reports.specs.Sheet.{IsClosed, csv_figures, csv_parts, heading, parts_of, plain_parts};
ghost use Rattle.book_reports.specs.Sheet.{plain_summary, sheet};
ghost use Rattle.book_reports.specs.Sheet.{parts_left_out, rest_of, unbooked};

use crate::layout::{add_day, add_printed};
use crate::lines::{
    Lines, add_amount, add_csv_amount, add_csv_header, add_csv_left_out, add_left_out,
};
use crate::period::Period;
use crate::section::Section;
use crate::{Form, View};
use book_commodity::{Day, OutOfMemory, Text};
use std::alloc::Global;

/// The lines of a balance sheet by its sections.
#[derive(Drop)]
struct Parts {
    assets: Lines,
    liabilities: Lines,
    equity: Lines,
    earnings: Lines,
}

/// The balance sheet of a book on a day, in the currency of the book. Where this is the only currency, no gains are
/// unbooked.
#[tactic(auto, unfolding(crate::specs::Sheet::sheet), using(crate::proofs::SheetLaw::sheet_is_closed))]
pub fn sheet(alloc: Global, view: &View, day: Day, form: Form) -> Result<Text, OutOfMemory>
    ensures text { IfOk result (λ text. text ≡ sheet view.now day form) }
    ensures closed { IsClosed view.now day }
{
    let fraction = view.fraction(view.plain.currency);
    let parts = Parts::of(alloc, view, day)?;
    let mut out = String::new(alloc);
    match form {
        Form::Plain => {
            add_heading(&mut out, view, day)?;
            parts.add_plain(alloc, &mut out, fraction)?;
        }
        Form::Csv => {
            add_csv_header(alloc, &mut out)?;
            parts.add_csv(alloc, &mut out, fraction)?;
        }
    }
    Ok(Text::of(out))
}

/// Adds the heading: the day and the name of the currency.
fn add_heading(out: &mut String, view: &View, day: Day) -> Result<(), OutOfMemory>
    ensures { OnOk result (string_bytes out.new ≡ string_bytes out.old ++ heading view.now day) }
{
    out.push_str("Balance sheet ")?;
    add_day(out, day)?;
    out.push(' ')?;
    add_printed(out, view.name(view.plain.currency))?;
    out.push('\n')?;
    Ok(())
}

impl Parts {
    /// The lines on a day.
    #[tactic(auto, unfolding(crate::specs::Sections::lines_of))]
    fn of(alloc: Global, view: &View, day: Day) -> Result<Parts, OutOfMemory>
        ensures { IfOk result (λ parts. parts ≡ parts_of view.now day) }
    {
        let order = view.order()?;
        let order = order.as_slice();
        let period = &Period::until(day);
        Ok(Parts {
            assets: Lines::of(alloc, view, order, period, Section::Assets)?,
            liabilities: Lines::of(alloc, view, order, period, Section::Liabilities)?,
            equity: Lines::of(alloc, view, order, period, Section::Equity)?,
            earnings: Lines::of(alloc, view, order, period, Section::Earnings)?,
        })
    }

    /// Assets less liabilities and equity.
    fn rest(&self) -> i128
        ensures rest { result ≡ rest_of self.now }
        ensures small { unsigned_abs result ≤ 10 ^ 35 }
    {
        self.assets.sum() - self.liabilities.sum() - self.equity.sum()
    }

    /// The same less retained earnings.
    fn unbooked(&self) -> i128
        ensures { result ≡ unbooked self.now }
    {
        self.rest() - self.earnings.sum()
    }

    /// How many accounts are left out of the sums.
    fn left_out(&self) -> usize
        ensures { result ≡ parts_left_out self.now }
    {
        self.assets.left_out()
            + self.liabilities.left_out()
            + self.equity.left_out()
            + self.earnings.left_out()
    }

    /// Adds the sections and the figures below them as plain text.
    fn add_plain(&self, alloc: Global, out: &mut String, fraction: u64) -> Result<(), OutOfMemory>
        ensures { OnOk result (string_bytes out.new ≡ string_bytes out.old ++ plain_parts fraction self.now) }
    {
        self.assets
            .add_plain(alloc, out, fraction, Section::Assets)?;
        self.liabilities
            .add_plain(alloc, out, fraction, Section::Liabilities)?;
        self.equity
            .add_plain(alloc, out, fraction, Section::Equity)?;
        self.add_summary(alloc, out, fraction)
    }

    /// Adds the figures below the sections.
    fn add_summary(&self, alloc: Global, out: &mut String, fraction: u64) -> Result<(), OutOfMemory>
        ensures { OnOk result (string_bytes out.new ≡ string_bytes out.old ++ plain_summary fraction self.now) }
    {
        self.add_earnings(alloc, out, fraction)?;
        self.add_unbooked(alloc, out, fraction)?;
        add_left_out(alloc, out, self.left_out())
    }

    /// Adds the line of retained earnings.
    fn add_earnings(
        &self,
        alloc: Global,
        out: &mut String,
        fraction: u64,
    ) -> Result<(), OutOfMemory>
        ensures { OnOk result (string_bytes out.new ≡ string_bytes out.old
            ++ amount_line (amount_text (sum_of self.now.earnings) fraction) (section_name Section.Earnings)) }
    {
        let name = Section::Earnings.name();
        add_amount(alloc, out, self.earnings.sum(), fraction, name)
    }

    /// Adds the line of unbooked gains.
    fn add_unbooked(
        &self,
        alloc: Global,
        out: &mut String,
        fraction: u64,
    ) -> Result<(), OutOfMemory>
        ensures { OnOk result (string_bytes out.new ≡ string_bytes out.old
            ++ amount_line (amount_text (unbooked self.now) fraction) (codes "Unbooked gains")) }
    {
        add_amount(alloc, out, self.unbooked(), fraction, "Unbooked gains")
    }

    /// Adds the sections and the figures below them as comma-separated values.
    fn add_csv(&self, alloc: Global, out: &mut String, fraction: u64) -> Result<(), OutOfMemory>
        ensures { OnOk result (string_bytes out.new ≡ string_bytes out.old ++ csv_parts fraction self.now) }
    {
        self.assets.add_csv(alloc, out, fraction, Section::Assets)?;
        self.liabilities
            .add_csv(alloc, out, fraction, Section::Liabilities)?;
        self.equity.add_csv(alloc, out, fraction, Section::Equity)?;
        self.add_figures(alloc, out, fraction)
    }

    /// Adds the figures below the sections as comma-separated values.
    fn add_figures(&self, alloc: Global, out: &mut String, fraction: u64) -> Result<(), OutOfMemory>
        ensures { OnOk result (string_bytes out.new ≡ string_bytes out.old ++ csv_figures fraction self.now) }
    {
        self.add_csv_earnings(alloc, out, fraction)?;
        self.add_csv_unbooked(alloc, out, fraction)?;
        add_csv_left_out(alloc, out, self.left_out())
    }

    /// Adds the retained earnings as a figure.
    fn add_csv_earnings(
        &self,
        alloc: Global,
        out: &mut String,
        fraction: u64,
    ) -> Result<(), OutOfMemory>
        ensures { OnOk result (string_bytes out.new ≡ string_bytes out.old
            ++ csv_summary (section_name Section.Earnings) (amount_text (sum_of self.now.earnings) fraction)) }
    {
        let name = Section::Earnings.name();
        add_csv_amount(alloc, out, self.earnings.sum(), fraction, name)
    }

    /// Adds the unbooked gains as a figure.
    fn add_csv_unbooked(
        &self,
        alloc: Global,
        out: &mut String,
        fraction: u64,
    ) -> Result<(), OutOfMemory>
        ensures { OnOk result (string_bytes out.new ≡ string_bytes out.old
            ++ csv_summary (codes "Unbooked gains") (amount_text (unbooked self.now) fraction)) }
    {
        add_csv_amount(alloc, out, self.unbooked(), fraction, "Unbooked gains")
    }
}
