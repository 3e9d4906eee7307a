ghost use Rattle.std.specs.Prelude.{◌≡◌, ◌++◌, ◌≤◌, All, IfOk, IsSome, OnOk, length, map, string_bytes};
ghost use Rattle.std.specs.Prelude.{unsigned_abs};
ghost use Rattle.book_accounts.specs.Order.{depth_first};
ghost use Rattle.book_commodity.specs.Table.{value_of};
ghost use Rattle.std.specs.List.{filter_map, flat_map};
ghost use Rattle.book_limits.specs.Limits.{largest_sum};
ghost use Rattle.book_reports.specs.Sheet.{until};
ghost use Rattle.book_reports.specs.Sums.{IsSummed, line_by, sum_at};
ghost use Rattle.book_reports.specs.Trial.{IsBalanced, credits, csv_lines, csv_part, csv_record, debits, heading};
ghost use Rattle.book_reports.specs.Trial.{line_of, part_of, plain_line};
ghost use Rattle.book_reports.specs.Trial.{plain_lines, plain_part, positive, side_text, title, trial};

use crate::layout::{add_day, add_printed, add_record, add_right};
use crate::sums::AccountSums;
use crate::{Form, View};
use book_commodity::{Commodity, Day, Many, OutOfMemory, Text, amount_text};
use std::alloc::{AllocError, Global};
use std::marker::Model;

/// A line of a trial balance: the path of an account, and the sum of its values in a currency as debit or credit.
#[derive(Drop)]
struct TrialLine {
    path: Text,
    debit: i128,
    credit: i128,
}

/// The lines of a currency: so few, and of sums so small, that they can be added up.
#[derive(Drop)]
struct TrialLines {
    lines: Many<TrialLine>,
}

impl Model for TrialLines {
    ghost use Rattle.std.specs.Prelude.{List};
    ghost use Rattle.book_reports.specs.Trial.{CanBeAdded};
    ghost use Rattle.book_reports.specs.declared.trial_balance.TrialLine.{TrialLine};

    ghost Value = { List TrialLine };

    ghost view = { λ l. l.lines };

    ghost invariant = { λ l. CanBeAdded l.lines };
}

/// The trial balance of a book up to a day. In each currency its debits add up to the same as its credits.
#[tactic(auto, unfolding(crate::specs::Trial::trial), using(crate::proofs::TrialLaw::trial_is_balanced))]
pub fn trial(alloc: Global, view: &View, day: Day, form: Form) -> Result<Text, OutOfMemory>
    ensures text { IfOk result (λ text. text ≡ trial view.now day form) }
    ensures balanced { IsBalanced view.now day }
{
    let commodities = view.plain.commodities.as_slice();
    let order = view.order()?;
    let sums = AccountSums::of_all(alloc, view, order.as_slice(), day)?;
    let mut out = String::new(alloc);
    add_heading(alloc, &mut out, day, form)?;
    add_parts(
        alloc,
        &mut out,
        view,
        sums.as_slice(),
        day,
        form,
        commodities,
    )?;
    Ok(Text::of(out))
}

/// Adds the parts of commodities.
fn add_parts(
    alloc: Global,
    out: &mut String,
    view: &View,
    sums: &[AccountSums],
    day: Day,
    form: Form,
    commodities: &[(u64, Commodity)],
) -> Result<(), OutOfMemory>
    requires order { map (λ sums. sums.account) sums.now ≡ depth_first view.now.accounts }
    requires few { length (depth_first view.now.accounts) ≤ 10000 }
    requires summed { All (IsSummed view.now (until day)) sums.now }
    ensures { OnOk result (string_bytes out.new
        ≡ string_bytes out.old ++ flat_map (part_of view.now day form) commodities.now) }
{
    for (number, commodity) in commodities {
        add_commodity(alloc, out, view, sums, day, form, *number, commodity)?;
    }
    Ok(())
}

/// Adds the title with the day.
fn add_title(out: &mut String, day: Day) -> Result<(), OutOfMemory>
    ensures { OnOk result (string_bytes out.new ≡ string_bytes out.old ++ title day) }
{
    out.push_str("Trial balance ")?;
    add_day(out, day)?;
    out.push('\n')?;
    Ok(())
}

/// Adds the part of a commodity, if it is a currency and an account has a line.
#[tactic(auto, unfolding(crate::specs::Trial::part_of, crate::specs::Trial::lines_of))]
fn add_commodity(
    alloc: Global,
    out: &mut String,
    view: &View,
    sums: &[AccountSums],
    day: Day,
    form: Form,
    number: u64,
    commodity: &Commodity,
) -> Result<(), OutOfMemory>
    requires order { map (λ sums. sums.account) sums.now ≡ depth_first view.now.accounts }
    requires few { length (depth_first view.now.accounts) ≤ 10000 }
    requires summed { All (IsSummed view.now (until day)) sums.now }
    ensures { OnOk result
        (string_bytes out.new ≡ string_bytes out.old ++ part_of view.now day form (number, commodity.now)) }
{
    if !commodity.is_currency() {
        return Ok(());
    }
    let lines = TrialLines::of(alloc, view, sums, day, number)?;
    if lines.len() == 0 {
        return Ok(());
    }
    match form {
        Form::Plain => lines.add_plain(alloc, out, commodity),
        Form::Csv => lines.add_csv(alloc, out, commodity),
    }
}

/// Adds the heading: the day, or the names of the fields.
fn add_heading(alloc: Global, out: &mut String, day: Day, form: Form) -> Result<(), OutOfMemory>
    ensures { OnOk result (string_bytes out.new ≡ string_bytes out.old ++ heading day form) }
{
    match form {
        Form::Plain => add_title(out, day),
        Form::Csv => add_csv_record(alloc, out, "currency", "account", "debit", "credit"),
    }
}

impl TrialLines {
    /// The lines of a currency, in the order of the accounts whose sums are given.
    fn of(
        alloc: Global,
        view: &View,
        sums: &[AccountSums],
        day: Day,
        currency: u64,
    ) -> Result<TrialLines, OutOfMemory>
        requires few { length (map (λ sums. sums.account) sums.now) ≤ 10000 }
        requires summed { All (IsSummed view.now (until day)) sums.now }
        ensures { IfOk result (λ lines. lines
            ≡ filter_map (line_of view.now day currency) (map (λ sums. sums.account) sums.now)) }
    {
        let lines = found_lines(alloc, view, sums, day, currency)?;
        let _ = view.plain.accounts.len();
        Ok(TrialLines { lines })
    }

    /// How many lines there are.
    fn len(&self) -> usize
        ensures { result ≡ length self.now }
    {
        self.lines.len()
    }

    /// The sum of the debits.
    #[tactic(auto, unfolding(crate::specs::Trial::debits))]
    fn debits(&self) -> i128
        ensures { result ≡ debits self.now }
    {
        let mut sum = 0i128;
        for line in self.lines.as_slice() {
            sum += line.debit;
        }
        sum
    }

    /// The sum of the credits.
    #[tactic(auto, unfolding(crate::specs::Trial::credits))]
    fn credits(&self) -> i128
        ensures { result ≡ credits self.now }
    {
        let mut sum = 0i128;
        for line in self.lines.as_slice() {
            sum += line.credit;
        }
        sum
    }

    /// Adds the part of a currency as plain text: its name, its lines, and the sums of both sides.
    fn add_plain(
        &self,
        alloc: Global,
        out: &mut String,
        currency: &Commodity,
    ) -> Result<(), OutOfMemory>
        ensures { OnOk result (string_bytes out.new ≡ string_bytes out.old ++ plain_part currency.now self.now) }
    {
        add_printed(out, currency.name.as_str())?;
        out.push('\n')?;
        add_plain_lines(alloc, out, currency.fraction, self.lines.as_slice())?;
        let debits = amount_text(alloc, self.debits(), currency.fraction)?;
        let credits = amount_text(alloc, self.credits(), currency.fraction)?;
        add_line(out, debits.as_str(), credits.as_str(), "Total")?;
        Ok(())
    }

    /// Adds the part of a currency as comma-separated values.
    fn add_csv(
        &self,
        alloc: Global,
        out: &mut String,
        currency: &Commodity,
    ) -> Result<(), OutOfMemory>
        ensures { OnOk result (string_bytes out.new ≡ string_bytes out.old ++ csv_part currency.now self.now) }
    {
        add_csv_lines(alloc, out, currency, self.lines.as_slice())?;
        let debits = amount_text(alloc, self.debits(), currency.fraction)?;
        let credits = amount_text(alloc, self.credits(), currency.fraction)?;
        add_csv_record(
            alloc,
            out,
            currency.name.as_str(),
            "Total",
            debits.as_str(),
            credits.as_str(),
        )
    }
}

/// The lines of the accounts whose sums in a currency aren't zero.
fn found_lines(
    alloc: Global,
    view: &View,
    sums: &[AccountSums],
    day: Day,
    currency: u64,
) -> Result<Many<TrialLine>, OutOfMemory>
    requires { All (IsSummed view.now (until day)) sums.now }
    ensures { IfOk result (λ lines. lines ≡ filter_map (line_by view.now currency) sums.now) }
{
    let mut lines = Many::new(alloc);
    for account in sums {
        if let Some(line) = line_of(view, account, currency)? {
            lines.push(line)?;
        }
    }
    Ok(lines)
}

/// The line of an account in a currency, if its sum isn't zero.
fn line_of(view: &View, sums: &AccountSums, currency: u64) -> Result<Option<TrialLine>, OutOfMemory>
    requires there { IsSome (value_of sums.now.account view.now.accounts) }
    requires small { unsigned_abs (sum_at currency sums.now.by_currency.entries) ≤ largest_sum }
    ensures { IfOk result (λ line. line ≡ line_by view.now currency sums.now) }
{
    let sum = sums.in_currency(currency);
    if sum == 0 {
        return Ok(None);
    }
    Ok(Some(TrialLine {
        path: view.path(sums.account)?,
        debit: positive(sum),
        credit: positive(-sum),
    }))
}

/// Adds the lines of the accounts as plain text.
fn add_plain_lines(
    alloc: Global,
    out: &mut String,
    fraction: u64,
    lines: &[TrialLine],
) -> Result<(), OutOfMemory>
    ensures { OnOk result (string_bytes out.new ≡ string_bytes out.old ++ plain_lines fraction lines.now) }
{
    for line in lines {
        let debit = side_text(alloc, line.debit, fraction)?;
        let credit = side_text(alloc, line.credit, fraction)?;
        add_line(out, debit.as_str(), credit.as_str(), line.path.as_str())?;
    }
    Ok(())
}

/// Adds the lines of the accounts as comma-separated values.
fn add_csv_lines(
    alloc: Global,
    out: &mut String,
    currency: &Commodity,
    lines: &[TrialLine],
) -> Result<(), OutOfMemory>
    ensures { OnOk result (string_bytes out.new ≡ string_bytes out.old ++ csv_lines currency.now lines.now) }
{
    for line in lines {
        let debit = side_text(alloc, line.debit, currency.fraction)?;
        let credit = side_text(alloc, line.credit, currency.fraction)?;
        add_csv_record(
            alloc,
            out,
            currency.name.as_str(),
            line.path.as_str(),
            debit.as_str(),
            credit.as_str(),
        )?;
    }
    Ok(())
}

/// The part of a sum that is positive, and nothing of a negative one.
fn positive(sum: i128) -> i128
    ensures { result ≡ positive sum }
{
    if sum > 0 { sum } else { 0 }
}

/// Adds a record of a currency, an account, a debit and a credit.
fn add_csv_record<'t>(
    alloc: Global,
    out: &mut String,
    currency: &'t str,
    account: &'t str,
    debit: &'t str,
    credit: &'t str,
) -> Result<(), OutOfMemory>
    ensures { OnOk result
        (string_bytes out.new ≡ string_bytes out.old ++ csv_record currency.now account.now debit.now credit.now) }
{
    add_record(
        alloc,
        out,
        &[
            currency.as_bytes(),
            account.as_bytes(),
            debit.as_bytes(),
            credit.as_bytes(),
        ],
    )
}

/// Adds a line of debit, credit and what they are of.
#[tactic(auto, unfolding(crate::specs::Trial::plain_line))]
fn add_line(out: &mut String, debit: &str, credit: &str, name: &str) -> Result<(), AllocError>
    ensures { OnOk result
        (string_bytes out.new ≡ string_bytes out.old ++ plain_line debit.now credit.now name.now) }
{
    add_right(out, 24, debit)?;
    add_right(out, 24, credit)?;
    out.push_str("  ")?;
    add_printed(out, name)?;
    out.push('\n')
}

/// The text of an amount on its side; blank where it isn't positive.
#[tactic(auto, unfolding(crate::specs::Trial::side_text))]
fn side_text(alloc: Global, amount: i128, fraction: u64) -> Result<Text, OutOfMemory>
    ensures { IfOk result (λ text. text ≡ side_text fraction amount) }
{
    if amount > 0 {
        return amount_text(alloc, amount, fraction);
    }
    Ok(Text::new(alloc))
}
