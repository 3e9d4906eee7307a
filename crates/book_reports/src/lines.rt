ghost use Rattle.std.specs.Prelude.{◌≡◌, ◌++◌, ◌≤◌, ◌^◌, IfOk, OnOk, codes, decimal, length, string_bytes};
ghost use Rattle.std.specs.Prelude.{unsigned_abs};
ghost use Rattle.std.specs.List.{filter_map};
ghost use Rattle.book_commodity.specs.Amount.{amount_text};
ghost use Rattle.book_reports.specs.Layout.{amount_line};
ghost use Rattle.book_reports.specs.Sections.{amount_in, csv_header, csv_lines, csv_record, csv_section, csv_summary};
ghost use Rattle.book_reports.specs.Sections.{is_left_out, left_out, left_out_line, line_of, plain_lines};
ghost use Rattle.book_reports.specs.Sections.{plain_section, sum_of, worth_text};

use crate::View;
use crate::layout::{add_amount_line, add_record};
use crate::period::Period;
use crate::section::Section;
use book_commodity::{Many, OutOfMemory, Text, amount_text};
use book_prices::Valuation;
use std::alloc::Global;
use std::marker::Model;

/// A line of a section: the path of an account, and the worth that is shown for it.
#[derive(Drop)]
pub(crate) struct Line {
    path: Text,
    worth: Valuation,
}

/// The lines of a section: so few, and of worths so small, that they can be added up.
#[derive(Drop)]
pub(crate) struct Lines {
    lines: Many<Line>,
}

impl Model for Lines {
    ghost use Rattle.std.specs.Prelude.{List};
    ghost use Rattle.book_reports.specs.Sections.{CanBeAdded};
    ghost use Rattle.book_reports.specs.declared.lines.Line.{Line};

    ghost Value = { List Line };

    ghost view = { λ l. l.lines };

    ghost invariant = { λ l. CanBeAdded l.lines };
}

impl Lines {
    /// The lines of a section over a period, in the order of the accounts that is given.
    pub(crate) fn of(
        alloc: Global,
        view: &View,
        order: &[u64],
        period: &Period,
        section: Section,
    ) -> Result<Lines, OutOfMemory>
        requires { length order.now ≤ 10000 }
        ensures { IfOk result (λ lines. lines ≡ filter_map (line_of view.now period.now section) order.now) }
    {
        let lines = found_lines(alloc, view, order, period, section)?;
        Ok(Lines { lines })
    }

    /// The sum of the lines.
    #[tactic(auto, unfolding(crate::specs::Sections::sum_of))]
    pub(crate) fn sum(&self) -> i128
        ensures sum { result ≡ sum_of self.now }
        ensures small { unsigned_abs result ≤ 10 ^ 34 }
    {
        let mut sum = 0i128;
        for line in self.lines.as_slice() {
            sum += amount_in(line.worth);
        }
        sum
    }

    /// How many lines are left out of the sum.
    #[tactic(auto, unfolding(crate::specs::Sections::left_out))]
    pub(crate) fn left_out(&self) -> usize
        ensures count { result ≡ left_out self.now }
        ensures few { result ≤ 10000 }
    {
        let mut count = 0usize;
        for line in self.lines.as_slice() {
            if is_left_out(line.worth) {
                count += 1;
            }
        }
        count
    }

    /// Adds the section as plain text.
    #[tactic(auto, unfolding(crate::specs::Sections::plain_section))]
    pub(crate) fn add_plain(
        &self,
        alloc: Global,
        out: &mut String,
        fraction: u64,
        section: Section,
    ) -> Result<(), OutOfMemory>
        ensures { OnOk result
            (string_bytes out.new ≡ string_bytes out.old ++ plain_section fraction section self.now) }
    {
        let name = section.name();
        out.push_str(name)?;
        out.push('\n')?;
        add_plain_lines(alloc, out, fraction, self.lines.as_slice())?;
        let sum = amount_text(alloc, self.sum(), fraction)?;
        let total = format!(in alloc; "Total {name}")?;
        add_amount_line(out, sum.as_str(), total.as_str())?;
        Ok(())
    }

    /// Adds the section as comma-separated values.
    #[tactic(auto, unfolding(crate::specs::Sections::csv_section))]
    pub(crate) fn add_csv(
        &self,
        alloc: Global,
        out: &mut String,
        fraction: u64,
        section: Section,
    ) -> Result<(), OutOfMemory>
        ensures { OnOk result (string_bytes out.new ≡ string_bytes out.old ++ csv_section fraction section self.now) }
    {
        add_csv_lines(alloc, out, fraction, section, self.lines.as_slice())?;
        let sum = amount_text(alloc, self.sum(), fraction)?;
        add_csv_record(alloc, out, section.name(), "Total", sum.as_str())
    }
}

/// The lines of the accounts that stand in a section.
fn found_lines(
    alloc: Global,
    view: &View,
    order: &[u64],
    period: &Period,
    section: Section,
) -> Result<Many<Line>, OutOfMemory>
    ensures { IfOk result (λ lines. lines ≡ filter_map (line_of view.now period.now section) order.now) }
{
    let mut lines = Many::new(alloc);
    for number in order {
        if let Some(line) = line_of(view, *number, period, section)? {
            lines.push(line)?;
        }
    }
    Ok(lines)
}

/// The line of an account, if it stands in the section and its sum isn't zero.
#[tactic(auto, unfolding(crate::specs::Sections::line_of))]
fn line_of(
    view: &View,
    number: u64,
    period: &Period,
    section: Section,
) -> Result<Option<Line>, OutOfMemory>
    ensures { IfOk result (λ line. line ≡ line_of view.now period.now section number) }
{
    let Some(account) = view.plain.accounts.find(number) else {
        return Ok(None);
    };
    if !section.holds(account.kind) {
        return Ok(None);
    }
    let sum = view.sum(number, period);
    if sum == 0 {
        return Ok(None);
    }
    let worth = view.worth(period.to, account.commodity, sum);
    Ok(Some(Line {
        path: view.path(number)?,
        worth: section.signed(worth),
    }))
}

/// Adds lines as plain text.
fn add_plain_lines(
    alloc: Global,
    out: &mut String,
    fraction: u64,
    lines: &[Line],
) -> Result<(), OutOfMemory>
    ensures { OnOk result (string_bytes out.new ≡ string_bytes out.old ++ plain_lines fraction lines.now) }
{
    for line in lines {
        let worth = worth_text(alloc, line.worth, fraction)?;
        add_amount_line(out, worth.as_str(), line.path.as_str())?;
    }
    Ok(())
}

/// Adds lines as comma-separated values.
fn add_csv_lines(
    alloc: Global,
    out: &mut String,
    fraction: u64,
    section: Section,
    lines: &[Line],
) -> Result<(), OutOfMemory>
    ensures { OnOk result (string_bytes out.new ≡ string_bytes out.old ++ csv_lines fraction section lines.now) }
{
    for line in lines {
        let worth = worth_text(alloc, line.worth, fraction)?;
        add_csv_record(
            alloc,
            out,
            section.name(),
            line.path.as_str(),
            worth.as_str(),
        )?;
    }
    Ok(())
}

/// What a worth adds to the sum of its section.
fn amount_in(worth: Valuation) -> i128
    ensures { result ≡ amount_in worth }
{
    match worth {
        Valuation::Amount(amount) => amount,
        Valuation::NoPrice | Valuation::Over => 0,
    }
}

/// Whether an account of this worth is left out of the sum.
fn is_left_out(worth: Valuation) -> bool
    ensures { result ≡ is_left_out worth }
{
    !matches!(worth, Valuation::Amount(_))
}

/// The text of a worth in a currency with this fraction.
#[tactic(auto, unfolding(crate::specs::Sections::worth_text))]
fn worth_text(alloc: Global, worth: Valuation, fraction: u64) -> Result<Text, OutOfMemory>
    ensures { IfOk result (λ text. text ≡ worth_text fraction worth) }
{
    match worth {
        Valuation::Amount(amount) => amount_text(alloc, amount, fraction),
        Valuation::NoPrice => Ok(Text::of(String::from_str(alloc, "no price")?)),
        Valuation::Over => Ok(Text::of(String::from_str(alloc, "over")?)),
    }
}

/// Adds a record of a section, an account and an amount.
pub(crate) fn add_csv_record<'t>(
    alloc: Global,
    out: &mut String,
    section: &'t str,
    account: &'t str,
    amount: &'t str,
) -> Result<(), OutOfMemory>
    ensures { OnOk result
        (string_bytes out.new ≡ string_bytes out.old ++ csv_record section.now account.now amount.now) }
{
    add_record(
        alloc,
        out,
        &[section.as_bytes(), account.as_bytes(), amount.as_bytes()],
    )
}

/// Adds the names of the fields of a report in sections.
pub(crate) fn add_csv_header(alloc: Global, out: &mut String) -> Result<(), OutOfMemory>
    ensures { OnOk result (string_bytes out.new ≡ string_bytes out.old ++ csv_header) }
{
    add_csv_record(alloc, out, "section", "account", "worth")
}

/// Adds the line of an amount in a currency with this fraction.
pub(crate) fn add_amount(
    alloc: Global,
    out: &mut String,
    amount: i128,
    fraction: u64,
    name: &str,
) -> Result<(), OutOfMemory>
    ensures { OnOk result
        (string_bytes out.new ≡ string_bytes out.old ++ amount_line (amount_text amount fraction) name.now) }
{
    let text = amount_text(alloc, amount, fraction)?;
    add_amount_line(out, text.as_str(), name)?;
    Ok(())
}

/// Adds how many accounts are left out.
#[tactic(auto, unfolding(crate::specs::Sections::left_out_line))]
pub(crate) fn add_left_out(alloc: Global, out: &mut String, count: usize) -> Result<(), OutOfMemory>
    ensures { OnOk result (string_bytes out.new ≡ string_bytes out.old ++ left_out_line count) }
{
    out.push_str(format!(in alloc; "Left out: {count}\n")?.as_str())?;
    Ok(())
}

/// Adds a figure of the whole report.
#[tactic(auto, unfolding(crate::specs::Sections::csv_summary))]
fn add_csv_summary(
    alloc: Global,
    out: &mut String,
    name: &str,
    amount: &str,
) -> Result<(), OutOfMemory>
    ensures { OnOk result (string_bytes out.new ≡ string_bytes out.old ++ csv_summary name.now amount.now) }
{
    add_csv_record(alloc, out, "Summary", name, amount)
}

/// Adds how many accounts are left out, as a figure of the whole report.
pub(crate) fn add_csv_left_out(
    alloc: Global,
    out: &mut String,
    count: usize,
) -> Result<(), OutOfMemory>
    ensures { OnOk result
        (string_bytes out.new ≡ string_bytes out.old ++ csv_summary (codes "Left out") (decimal count)) }
{
    let text = format!(in alloc; "{count}")?;
    add_csv_summary(alloc, out, "Left out", text.as_str())
}

/// Adds an amount in a currency with this fraction, as a figure of the whole report.
pub(crate) fn add_csv_amount(
    alloc: Global,
    out: &mut String,
    amount: i128,
    fraction: u64,
    name: &str,
) -> Result<(), OutOfMemory>
    ensures { OnOk result
        (string_bytes out.new ≡ string_bytes out.old ++ csv_summary name.now (amount_text amount fraction)) }
{
    let text = amount_text(alloc, amount, fraction)?;
    add_csv_summary(alloc, out, name, text.as_str())
}
