ghost use Rattle.std.specs.Prelude.{◌≡◌, ◌++◌, [], All, IfOk, IsSome, OnOk, if◌then◌else◌, string_bytes};
ghost use Rattle.std.specs.Fmt.{decimal};
ghost use Rattle.std.specs.List.{flat_map};
ghost use Rattle.book_commodity.specs.Amount.{amount_text};
ghost use Rattle.book_commodity.specs.Day.{day_text};
ghost use Rattle.book_commodity.specs.Table.{value_of};
ghost use Rattle.book_ledger.specs.Ledger.{register_of};
ghost use Rattle.book_lots.specs.Lots.{IsSmall, all_gains};
ghost use Rattle.book_reports.specs.LotsText.{basis_of, gains, header, heading, lot_row, lots_text, pair_row, row_text};
ghost use Rattle.book_reports.specs.LotsText.{style_of, sum_row, title, word};
ghost use Rattle.book_reports.specs.declared.form.Form.TheVariants.{Csv, Plain};

use crate::layout::{add_day, add_printed, add_record};
use crate::{Form, View};
use book_commodity::{Day, OutOfMemory, Text, amount_text};
use book_lots::{Lots, OpenLot, Pair};
use std::alloc::{AllocError, Global};
use std::marker::Model;

/// How rows are written: in which form, and with which fractions of units and of amounts.
#[derive(Clone, Copy)]
pub(crate) struct Style {
    form: Form,
    units: u64,
    amounts: u64,
}

/// The texts of a row, of which some may be empty.
#[derive(Drop)]
struct Row<'t> {
    what: &'t str,
    plus: &'t str,
    minus: &'t str,
    units: &'t str,
    day: &'t str,
    amount: &'t str,
}

impl<'t> Model for Row<'t> {
    ghost use Rattle.book_reports.specs.LotsText.{Fields};

    ghost Value = { Fields };

    ghost view = { λ r. record {
      what = r.what.now;
      plus = r.plus.now;
      minus = r.minus.now;
      units = r.units.now;
      day = r.day.now;
      amount = r.amount.now;
    } };
}

impl<'a> View<'a> {
    /// The currency that an account has as its basis; 0, where it has none or there is no such account.
    fn basis_of(&self, account: u64) -> u64
        ensures { result ≡ basis_of self.now account }
    {
        match self.plain.accounts.find(account) {
            Some(account) => account.basis.unwrap_or(0),
            None => 0,
        }
    }
}

/// The lots of an account of a book, as units first bought are first sold: those that are kept, where they are brought
/// up to its register, and else lots that are reckoned for this text.
pub fn lots_text(alloc: Global, view: &View, account: u64, form: Form) -> Result<Text, OutOfMemory>
    requires { IsSome (value_of account view.now.accounts) }
    ensures { IfOk result (λ text. text ≡ lots_text view.now account form) }
{
    if let Some(kept) = view.lots(account) {
        return text_of(alloc, view, account, form, kept);
    }
    let reckoned = reckoned_lots(alloc, view, account)?;
    text_of(alloc, view, account, form, &reckoned)
}

/// The text of the lots of an account.
#[tactic(auto, unfolding(crate::specs::LotsText::lots_text, crate::specs::LotsText::rows_text))]
fn text_of(
    alloc: Global,
    view: &View,
    account: u64,
    form: Form,
    lots: &Lots,
) -> Result<Text, OutOfMemory>
    requires there { IsSome (value_of account view.now.accounts) }
    requires entries { lots.now.entries ≡ register_of account view.now.transactions }
    requires small { All IsSmall lots.now.entries }
    ensures { IfOk result (λ text. text ≡ lots_text view.now account form) }
{
    let style = style_of(view, account, form);
    let mut out = String::new(alloc);
    add_heading(alloc, &mut out, view, account, form)?;
    add_pairs(alloc, &mut out, style, lots.pairs())?;
    add_open_lots(alloc, &mut out, style, lots.lots())?;
    add_sum(alloc, &mut out, style, "Adjustments", lots.adjustments())?;
    add_sum(alloc, &mut out, style, "Gains", all_gains(lots))?;
    add_sum(alloc, &mut out, style, "Open cost", lots.open_cost())?;
    Ok(Text::of(out))
}

/// The gains of an account of a book on the days from one to another, both included, in smallest units of its basis: by
/// the lots that are kept, where they are brought up to its register, and else by lots that are reckoned for this.
pub fn gains(
    alloc: Global,
    view: &View,
    account: u64,
    from: Day,
    to: Day,
) -> Result<i128, OutOfMemory>
    requires { IsSome (value_of account view.now.accounts) }
    ensures { IfOk result (λ gain. gain ≡ gains view.now account from to) }
{
    if let Some(kept) = view.lots(account) {
        return Ok(kept.gains(from, to));
    }
    let lots = reckoned_lots(alloc, view, account)?;
    Ok(lots.gains(from, to))
}

/// The lots of an account of the book.
fn reckoned_lots(alloc: Global, view: &View, account: u64) -> Result<Lots, OutOfMemory>
    requires { IsSome (value_of account view.now.accounts) }
    ensures entries { IfOk result (λ lots. lots.entries ≡ register_of account view.now.transactions) }
    ensures small { IfOk result (λ lots. All IsSmall lots.entries) }
{
    let mut lots = Lots::new(alloc);
    lots.extend(view.register(account))?;
    Ok(lots)
}

/// How the rows of an account are written.
fn style_of(view: &View, account: u64, form: Form) -> Style
    ensures { result ≡ style_of view.now account form }
{
    Style {
        form,
        units: view.fraction(view.commodity_of(account)),
        amounts: view.fraction(view.basis_of(account)),
    }
}

/// The sum of the gains of all pairs.
fn all_gains(lots: &Lots) -> i128
    requires { All IsSmall lots.now.entries }
    ensures { result ≡ all_gains lots.now.entries }
{
    let mut sum = 0;
    for pair in lots.pairs() {
        sum += pair.gain;
    }
    sum
}

/// Adds the heading: the path of the account, or the names of the fields.
fn add_heading(
    alloc: Global,
    out: &mut String,
    view: &View,
    account: u64,
    form: Form,
) -> Result<(), OutOfMemory>
    requires { IsSome (value_of account view.now.accounts) }
    ensures { OnOk result (string_bytes out.new ≡ string_bytes out.old ++ heading form view.now account) }
{
    match form {
        Form::Plain => add_title(out, view, account),
        Form::Csv => add_header(alloc, out),
    }
}

/// Adds the path of an account.
#[tactic(auto, unfolding(crate::specs::LotsText::title))]
fn add_title(out: &mut String, view: &View, account: u64) -> Result<(), OutOfMemory>
    requires { IsSome (value_of account view.now.accounts) }
    ensures { OnOk result (string_bytes out.new ≡ string_bytes out.old ++ title view.now account) }
{
    let path = view.path(account)?;
    out.push_str("Lots ")?;
    add_printed(out, path.as_str())?;
    out.push('\n')?;
    Ok(())
}

/// Adds the names of the fields.
fn add_header(alloc: Global, out: &mut String) -> Result<(), OutOfMemory>
    ensures { OnOk result (string_bytes out.new ≡ string_bytes out.old ++ row_text Csv header) }
{
    let names = Row {
        what: "what",
        plus: "plus",
        minus: "minus",
        units: "units",
        day: "day",
        amount: "amount",
    };
    add_fields(alloc, out, &names)
}

/// Adds a row for each pair.
fn add_pairs(
    alloc: Global,
    out: &mut String,
    style: Style,
    pairs: &[Pair],
) -> Result<(), OutOfMemory>
    ensures { OnOk result
        (string_bytes out.new ≡ string_bytes out.old ++ flat_map (pair_row style) pairs.now) }
{
    for pair in pairs {
        add_pair(alloc, out, style, pair)?;
    }
    Ok(())
}

/// Adds the row of a pair.
fn add_pair(alloc: Global, out: &mut String, style: Style, pair: &Pair) -> Result<(), OutOfMemory>
    ensures { OnOk result (string_bytes out.new ≡ string_bytes out.old ++ pair_row style pair.now) }
{
    let plus = number_text(alloc, pair.plus)?;
    let minus = number_text(alloc, pair.minus)?;
    let units = units_text(alloc, pair.units, style)?;
    let day = day_text(alloc, pair.day)?;
    let gain = amount_text(alloc, pair.gain, style.amounts)?;
    let row = Row {
        what: "pair",
        plus: plus.as_str(),
        minus: minus.as_str(),
        units: units.as_str(),
        day: day.as_str(),
        amount: gain.as_str(),
    };
    add_row(alloc, out, style.form, &row)
}

/// Adds a row for each open lot.
fn add_open_lots(
    alloc: Global,
    out: &mut String,
    style: Style,
    lots: &[OpenLot],
) -> Result<(), OutOfMemory>
    ensures { OnOk result
        (string_bytes out.new ≡ string_bytes out.old ++ flat_map (lot_row style) lots.now) }
{
    for lot in lots {
        add_open_lot(alloc, out, style, lot)?;
    }
    Ok(())
}

/// Adds the row of an open lot.
fn add_open_lot(
    alloc: Global,
    out: &mut String,
    style: Style,
    lot: &OpenLot,
) -> Result<(), OutOfMemory>
    ensures { OnOk result (string_bytes out.new ≡ string_bytes out.old ++ lot_row style lot.now) }
{
    let split = number_text(alloc, lot.split)?;
    let units = units_text(alloc, lot.units, style)?;
    let cost = amount_text(alloc, lot.cost, style.amounts)?;
    let is_short = lot.units < 0;
    let row = Row {
        what: "open",
        plus: text_unless(is_short, split.as_str()),
        minus: text_unless(!is_short, split.as_str()),
        units: units.as_str(),
        day: "",
        amount: cost.as_str(),
    };
    add_row(alloc, out, style.form, &row)
}

/// Adds the row of a sum.
fn add_sum(
    alloc: Global,
    out: &mut String,
    style: Style,
    name: &str,
    amount: i128,
) -> Result<(), OutOfMemory>
    ensures { OnOk result (string_bytes out.new ≡ string_bytes out.old ++ sum_row style name.now amount) }
{
    let amount = amount_text(alloc, amount, style.amounts)?;
    let row = Row {
        what: name,
        plus: "",
        minus: "",
        units: "",
        day: "",
        amount: amount.as_str(),
    };
    add_row(alloc, out, style.form, &row)
}

/// Adds a row in a form.
fn add_row(alloc: Global, out: &mut String, form: Form, row: &Row) -> Result<(), OutOfMemory>
    ensures { OnOk result (string_bytes out.new ≡ string_bytes out.old ++ row_text form row.now) }
{
    match form {
        Form::Plain => add_words(out, row),
        Form::Csv => add_fields(alloc, out, row),
    }
}

/// Adds the texts of a row that aren't empty.
#[tactic(auto, unfolding(crate::specs::LotsText::row_text))]
fn add_words(out: &mut String, row: &Row) -> Result<(), OutOfMemory>
    ensures { OnOk result (string_bytes out.new ≡ string_bytes out.old ++ row_text Plain row.now) }
{
    out.push_str(row.what)?;
    add_word(out, row.plus)?;
    add_word(out, row.minus)?;
    add_word(out, row.units)?;
    add_word(out, row.day)?;
    add_word(out, row.amount)?;
    out.push('\n')?;
    Ok(())
}

/// Adds a text behind a space, and nothing where it is empty.
fn add_word(out: &mut String, text: &str) -> Result<(), AllocError>
    ensures { OnOk result (string_bytes out.new ≡ string_bytes out.old ++ word text.now) }
{
    if text.is_empty() {
        return Ok(());
    }
    out.push(' ')?;
    out.push_str(text)
}

/// Adds a row as comma-separated values.
#[tactic(auto, unfolding(crate::specs::LotsText::row_text))]
fn add_fields(alloc: Global, out: &mut String, row: &Row) -> Result<(), OutOfMemory>
    ensures { OnOk result (string_bytes out.new ≡ string_bytes out.old ++ row_text Csv row.now) }
{
    add_record(
        alloc,
        out,
        &[
            row.what.as_bytes(),
            row.plus.as_bytes(),
            row.minus.as_bytes(),
            row.units.as_bytes(),
            row.day.as_bytes(),
            row.amount.as_bytes(),
        ],
    )
}

/// A text, and no letter where it is left out.
fn text_unless(is_left_out: bool, text: &str) -> &str
    ensures { result.now ≡ (if is_left_out then [] else text.now) }
{
    if is_left_out { "" } else { text }
}

/// Units as a text.
fn units_text(alloc: Global, units: i64, style: Style) -> Result<Text, OutOfMemory>
    ensures { IfOk result (λ text. text ≡ amount_text units style.units) }
{
    amount_text(alloc, i128::from(units), style.units)
}

/// A day as a text.
fn day_text(alloc: Global, day: Day) -> Result<String, AllocError>
    ensures { IfOk result (λ text. string_bytes text ≡ day_text day) }
{
    let mut text = String::new(alloc);
    add_day(&mut text, day)?;
    Ok(text)
}

/// The decimal digits of a number.
fn number_text(alloc: Global, number: u64) -> Result<String, AllocError>
    ensures { IfOk result (λ text. string_bytes text ≡ decimal number) }
{
    format!(in alloc; "{number}")
}
