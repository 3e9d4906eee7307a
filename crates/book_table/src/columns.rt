ghost use Rattle.std.specs.Prelude.{◌≡◌, ◌==◌, ◌≤◌, ◌<◌, ◌+◌, ◌^◌, ◌++◌, IfOk, OnOk, drop, length, map};
ghost use Rattle.std.specs.Prelude.{if◌then◌else◌, replicate, string_bytes};
ghost use Rattle.std.specs.List.{flat_map};
ghost use Rattle.book_reports.specs.Layout.{printed, record_text};
ghost use Rattle.book_table.specs.Columns.{before, columns_from, filled, gap, last_side, line, lines, placed};
ghost use Rattle.book_table.specs.Columns.{table_text, trimmed, widest, width, width_at};

use crate::layout::{add_printed, add_record};
use book_commodity::{Many, OutOfMemory, Text};
use book_reports::Form;
use std::alloc::{AllocError, Global};
use unicode_width::UnicodeWidthStr;

/// How many places of a terminal a column has at most. A wider text stands there whole, and moves what is behind it in
/// its own row alone; so one long text doesn't widen every row.
const MOST_PLACES: usize = 80;

/// Where the texts of a column stand: at its left end, at its right end, or by themselves, as in a last column.
#[derive(Clone, Copy, Debug, PartialEq, Eq)]
pub enum Side {
    Left,
    Right,
    Free,
}

/// A column: where its texts stand, and in how many places of a terminal.
#[derive(Clone, Copy, Debug, PartialEq, Eq)]
pub(crate) struct Column {
    side: Side,
    places: usize,
}

/// The text of a table, of which the first row has the names of the columns.
#[tactic(auto, unfolding(crate::specs::Columns::table_text))]
pub fn table_text(
    alloc: Global,
    form: Form,
    sides: &[Side],
    rows: &[Many<Text>],
) -> Result<Text, OutOfMemory>
    ensures { IfOk result (λ text. text ≡ table_text form sides.now rows.now) }
{
    match form {
        Form::Plain => {
            let printed = printed_rows(alloc, rows)?;
            lines_text(alloc, sides, printed.as_slice())
        }
        Form::Csv => records_text(alloc, rows),
    }
}

/// The rows as comma-separated values.
fn records_text(alloc: Global, rows: &[Many<Text>]) -> Result<Text, OutOfMemory>
    ensures { IfOk result (λ text. text ≡ flat_map record_text rows.now) }
{
    let mut out = String::new(alloc);
    for row in rows {
        add_record(alloc, &mut out, row.as_slice())?;
    }
    Ok(Text::of(out))
}

/// The rows in columns.
fn lines_text(alloc: Global, sides: &[Side], rows: &[Many<Text>]) -> Result<Text, OutOfMemory>
    ensures { IfOk result (λ text. text ≡ lines sides.now rows.now) }
{
    let columns = columns_of(alloc, sides, rows)?;
    let mut out = String::new(alloc);
    add_lines(&mut out, columns.as_slice(), rows)?;
    Ok(Text::of(out))
}

/// Adds the rows in these columns.
fn add_lines(out: &mut String, columns: &[Column], rows: &[Many<Text>]) -> Result<(), AllocError>
    ensures { OnOk result (string_bytes out.new ≡ string_bytes out.old
        ++ flat_map (λ row. line columns.now (trimmed row)) rows.now) }
{
    for row in rows {
        add_row(out, columns, row.as_slice())?;
    }
    Ok(())
}

/// The rows with each control character below U+0020 shown as a space.
fn printed_rows(alloc: Global, rows: &[Many<Text>]) -> Result<Many<Many<Text>>, OutOfMemory>
    ensures { IfOk result (λ printed_rows. printed_rows ≡ map (map printed) rows.now) }
{
    let mut shown = Many::new(alloc);
    for row in rows {
        shown.push(printed_row(alloc, row.as_slice())?)?;
    }
    Ok(shown)
}

/// A row with each control character below U+0020 shown as a space.
fn printed_row(alloc: Global, row: &[Text]) -> Result<Many<Text>, OutOfMemory>
    ensures { IfOk result (λ printed_row. printed_row ≡ map printed row.now) }
{
    let mut shown = Many::new(alloc);
    for text in row {
        let mut out = String::new(alloc);
        add_printed(&mut out, text.as_str())?;
        shown.push(Text::of(out))?;
    }
    Ok(shown)
}

/// How many places of a terminal the text at a place of a row takes.
#[tactic(auto, unfolding(crate::specs::Columns::width))]
fn width_at(row: &[Text], place: usize) -> usize
    ensures { result ≡ width_at place row.now }
{
    match row.get(place) {
        Some(text) => text.as_str().width(),
        None => 0,
    }
}

/// The widest text at a place of the rows.
#[tactic(auto, using(crate::proofs::ColumnLemmas::widest_next, crate::proofs::ColumnLemmas::widest_end))]
fn widest(rows: &[Many<Text>], place: usize) -> usize
    ensures { result ≡ widest place rows.now }
{
    let mut most = 0usize;
    for row in rows {
        most = most.max(width_at(row.as_slice(), place));
    }
    most
}

/// The columns, each as wide as its widest text, but not wider than the most places that a column has.
fn columns_of(
    alloc: Global,
    sides: &[Side],
    rows: &[Many<Text>],
) -> Result<Many<Column>, OutOfMemory>
    ensures { IfOk result (λ columns. columns ≡ columns_from 0 sides.now rows.now) }
{
    let mut columns = Many::new(alloc);
    for (place, side) in sides.iter().enumerate() {
        columns.push(Column {
            side: *side,
            places: widest(rows, place).min(MOST_PLACES),
        })?;
    }
    Ok(columns)
}

/// Adds so many spaces.
fn add_spaces(out: &mut String, count: usize) -> Result<(), AllocError>
    ensures { OnOk result (string_bytes out.new ≡ string_bytes out.old ++ replicate count 32) }
{
    for _place in 0..count {
        out.push(' ')?;
    }
    Ok(())
}

/// Adds a text in its column.
#[tactic(auto, unfolding(crate::specs::Columns::placed, crate::specs::Columns::width))]
fn add_placed(out: &mut String, column: Column, text: &str) -> Result<(), AllocError>
    ensures { OnOk result (string_bytes out.new ≡ string_bytes out.old ++ placed column text.now) }
{
    let free = column.places.saturating_sub(text.width());
    match column.side {
        Side::Left => {
            out.push_str(text)?;
            add_spaces(out, free)
        }
        Side::Right => {
            add_spaces(out, free)?;
            out.push_str(text)
        }
        Side::Free => out.push_str(text),
    }
}

/// Adds a row of texts, each in its column; the empty ones at its end are left out.
fn add_row(out: &mut String, columns: &[Column], row: &[Text]) -> Result<(), AllocError>
    ensures { OnOk result (string_bytes out.new ≡ string_bytes out.old ++ line columns.now (trimmed row.now)) }
{
    add_line(out, columns, &row[..filled(row)])
}

/// How many texts of a row there are up to the last one that isn't empty.
fn filled(row: &[Text]) -> usize
    ensures count { result ≡ filled row.now }
    ensures at_most { result ≤ length row.now }
{
    let mut count = 0;
    for (place, text) in row.iter().enumerate() {
        count = filled_after(count, place, text.as_str());
    }
    count
}

/// How many there are after the text at a place, where so many were before it.
fn filled_after(count: usize, place: usize, text: &str) -> usize
    requires { place + 1 < 2 ^ 64 }
    ensures { result ≡ (if length text.now == 0 then count else place + 1) }
{
    if text.is_empty() { count } else { place + 1 }
}

/// Adds a row of texts, each in its column.
fn add_line(out: &mut String, columns: &[Column], row: &[Text]) -> Result<(), AllocError>
    ensures { OnOk result (string_bytes out.new ≡ string_bytes out.old ++ line columns.now row.now) }
{
    for place in 0..columns.len().min(row.len()) {
        let column = column_before(columns[place], row, place + 1);
        add_placed(out, column, row[place].as_str())?;
        add_gap(out, row, place + 1)?;
    }
    out.push('\n')
}

/// The column of a text, where the texts from a place on stand behind it.
fn column_before(column: Column, row: &[Text], place: usize) -> Column
    ensures { result ≡ before (drop place row.now) column }
{
    if place < row.len() {
        return column;
    }
    Column {
        side: last_side(column.side),
        places: column.places,
    }
}

/// Where the last text of a line stands.
fn last_side(side: Side) -> Side
    ensures { result ≡ last_side side }
{
    match side {
        Side::Left | Side::Free => Side::Free,
        Side::Right => Side::Right,
    }
}

/// Adds what stands before the text at a place of a row, and nothing behind the last one.
fn add_gap(out: &mut String, row: &[Text], place: usize) -> Result<(), AllocError>
    ensures { OnOk result (string_bytes out.new ≡ string_bytes out.old ++ gap (drop place row.now)) }
{
    if place < row.len() {
        return out.push_str("  ");
    }
    Ok(())
}
