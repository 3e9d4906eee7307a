ghost use Rattle.std.specs.Prelude.{◌≡◌, ◌++◌, [], IfOk, IsSome, OnOk, if◌then◌else◌, string_bytes};
ghost use Rattle.book_commodity.specs.Table.{value_of};
ghost use Rattle.book_ledger.specs.Ledger.{register_of};
ghost use Rattle.book_reports.specs.Measure.{commodity_of, fraction_of, is_in};
ghost use Rattle.book_reports.specs.RegisterText.{columns, csv_record, csv_row, description_in, header, heading};
ghost use Rattle.book_reports.specs.RegisterText.{mark_letter, number_in, plain_row};
ghost use Rattle.book_reports.specs.RegisterText.{register_text, row_in, rows_after, title};

use crate::layout::{add_day, add_printed, add_record, add_right};
use crate::period::Period;
use crate::{Form, View};
use book_commodity::{Day, OutOfMemory, Steps, Text, amount_text};
use book_register::{Entry, Mark2};
use std::alloc::{AllocError, Global};

/// The register of an account of a book from one day to another.
#[tactic(auto, unfolding(crate::specs::RegisterText::register_text))]
pub fn register_text(
    alloc: Global,
    view: &View,
    account: u64,
    from: Day,
    to: Day,
    form: Form,
) -> Result<Text, OutOfMemory>
    requires { IsSome (value_of account view.now.accounts) }
    ensures { IfOk result (λ text. text ≡ register_text view.now account from to form) }
{
    let mut out = String::new(alloc);
    let commodity = view.commodity_of(account);
    add_heading(alloc, &mut out, view, account, commodity, form)?;
    add_rows(
        alloc,
        &mut out,
        view,
        account,
        &Period::between(from, to),
        form,
    )?;
    Ok(Text::of(out))
}

/// Adds the heading: the path and the name of the commodity, or the names of the fields.
fn add_heading(
    alloc: Global,
    out: &mut String,
    view: &View,
    account: u64,
    commodity: u64,
    form: Form,
) -> Result<(), OutOfMemory>
    requires { IsSome (value_of account view.now.accounts) }
    ensures { OnOk result (string_bytes out.new ≡ string_bytes out.old ++ heading form view.now account commodity) }
{
    match form {
        Form::Plain => add_title(out, view, account, commodity),
        Form::Csv => add_header(alloc, out),
    }
}

/// Adds the path of an account and the name of its commodity.
#[tactic(auto, unfolding(crate::specs::RegisterText::title))]
fn add_title(out: &mut String, view: &View, account: u64, commodity: u64) -> Result<(), OutOfMemory>
    requires { IsSome (value_of account view.now.accounts) }
    ensures { OnOk result (string_bytes out.new ≡ string_bytes out.old ++ title view.now account commodity) }
{
    let path = view.path(account)?;
    out.push_str("Register ")?;
    add_printed(out, path.as_str())?;
    out.push(' ')?;
    add_printed(out, view.name(commodity))?;
    out.push('\n')?;
    Ok(())
}

/// Adds the names of the fields.
#[tactic(auto, unfolding(crate::specs::RegisterText::header))]
fn add_header(alloc: Global, out: &mut String) -> Result<(), OutOfMemory>
    ensures { OnOk result (string_bytes out.new ≡ string_bytes out.old ++ header) }
{
    add_csv_record(
        alloc,
        out,
        "day",
        "mark",
        "quantity",
        "balance",
        "num",
        "description",
    )
}

/// Adds the rows of an account in a period.
fn add_rows(
    alloc: Global,
    out: &mut String,
    view: &View,
    account: u64,
    period: &Period,
    form: Form,
) -> Result<(), OutOfMemory>
    requires { IsSome (value_of account view.now.accounts) }
    ensures { OnOk result (string_bytes out.new ≡ string_bytes out.old
        ++ rows_after form view.now (fraction_of view.now.commodities (commodity_of view.now account)) period.now []
        (register_of account view.now.transactions)) }
{
    let register = view.register(account);
    let fraction = view.fraction(view.commodity_of(account));
    let mut steps = Steps::new();
    let mut balance = 0i128;
    for place in 0..register.len() {
        let row = register.row(place, &mut steps);
        balance += i128::from(row.quantity);
        add_row(alloc, out, view, fraction, period, &row, balance, form)?;
    }
    Ok(())
}

/// Adds a row with the balance after it, if it lies in the period.
#[tactic(auto, unfolding(crate::specs::RegisterText::row_in))]
fn add_row(
    alloc: Global,
    out: &mut String,
    view: &View,
    fraction: u64,
    period: &Period,
    row: &Entry,
    after: i128,
    form: Form,
) -> Result<(), OutOfMemory>
    ensures { OnOk result (string_bytes out.new ≡ string_bytes out.old
        ++ (if is_in period.now row.now.day then row_in form view.now fraction row.now after else [])) }
{
    if !period.holds(row.day) {
        return Ok(());
    }
    let quantity = amount_text(alloc, i128::from(row.quantity), fraction)?;
    let after = amount_text(alloc, after, fraction)?;
    match form {
        Form::Plain => add_plain_row(out, view, row, quantity.as_str(), after.as_str()),
        Form::Csv => add_csv_row(alloc, out, view, row, quantity.as_str(), after.as_str()),
    }
}

/// Adds a row as plain text.
fn add_plain_row(
    out: &mut String,
    view: &View,
    row: &Entry,
    quantity: &str,
    after: &str,
) -> Result<(), OutOfMemory>
    ensures { OnOk result (string_bytes out.new
        ≡ string_bytes out.old ++ plain_row view.now row.now quantity.now after.now) }
{
    add_columns(out, row, quantity, after)?;
    add_printed(out, view.number_of(row.txn))?;
    out.push_str("  ")?;
    add_printed(out, view.description_of(row.txn))?;
    out.push('\n')?;
    Ok(())
}

/// Adds the columns of a row: its day, its mark, its quantity and the balance after it.
#[tactic(auto, unfolding(crate::specs::RegisterText::columns))]
fn add_columns(out: &mut String, row: &Entry, quantity: &str, after: &str) -> Result<(), AllocError>
    ensures { OnOk result (string_bytes out.new ≡ string_bytes out.old ++ columns row.now quantity.now after.now) }
{
    add_day(out, row.day)?;
    out.push_str("  ")?;
    out.push_str(mark_letter(row.mark))?;
    out.push_str("  ")?;
    add_right(out, 20, quantity)?;
    out.push_str("  ")?;
    add_right(out, 24, after)?;
    out.push_str("  ")
}

/// Adds a row as comma-separated values.
fn add_csv_row(
    alloc: Global,
    out: &mut String,
    view: &View,
    row: &Entry,
    quantity: &str,
    after: &str,
) -> Result<(), OutOfMemory>
    ensures { OnOk result (string_bytes out.new
        ≡ string_bytes out.old ++ csv_row view.now row.now quantity.now after.now) }
{
    let mut day = String::new(alloc);
    add_day(&mut day, row.day)?;
    let number = view.number_of(row.txn);
    let description = view.description_of(row.txn);
    let mark = mark_letter(row.mark);
    add_csv_record(
        alloc,
        out,
        day.as_str(),
        mark,
        quantity,
        after,
        number,
        description,
    )
}

/// Adds a record of day, mark, quantity, balance, number and description.
fn add_csv_record<'t>(
    alloc: Global,
    out: &mut String,
    day: &'t str,
    mark: &'t str,
    quantity: &'t str,
    after: &'t str,
    number: &'t str,
    description: &'t str,
) -> Result<(), OutOfMemory>
    ensures { OnOk result (string_bytes out.new ≡ string_bytes out.old
        ++ csv_record day.now mark.now quantity.now after.now number.now description.now) }
{
    add_record(
        alloc,
        out,
        &[
            day.as_bytes(),
            mark.as_bytes(),
            quantity.as_bytes(),
            after.as_bytes(),
            number.as_bytes(),
            description.as_bytes(),
        ],
    )
}

/// The letter of a mark.
fn mark_letter(mark: Mark2) -> &'static str
    ensures { result.now ≡ mark_letter mark }
{
    match mark {
        Mark2::Plain => "n",
        Mark2::Cleared => "c",
        Mark2::Reconciled => "y",
    }
}
