//! Rows of statements, lines, bindings and reconciliations. The bodies were made by hand from the table of rows in
//! docs/FORMATS.md. No two fields of a thing that have one type are equal, so that a swap of two would show.
use book_codec::{Field, write_whole};
use book_commodity::{Day, Many, OutOfMemory, Text};
use book_rows::Rows;
use book_splits::{MarkedSplit, Recon};
use book_statement::{Binding, Held, Line, LineState, Part, StatementLine};
use std::alloc::Global;
use std::test::Fail;

/// The format in which rows are written.
const FORMAT: u8 = 2;

/// A statement of account 3, without an opening balance, which does not tie.
const HELD: &[u8] = b"\x02\0\0\0\0\0\0\0\x03\0\0\0\0\0\0\0\x04NL01\0\0\0\0\0\0\0\x02A7\0\
    \x01\0\0\0\0\0\0\0\xfa\0\0\0\0\0\0\x4d\x0f\x01\0";

/// A line of statement 9 with one part, matched with split 6.
const LINE: &[u8] =
    b"\x02\0\0\0\0\0\0\0\x03\0\0\0\0\0\0\0\x09\0\0\0\0\0\0\0\x02\0\0\0\0\0\0\x4d\x0f\
    \0\0\0\0\0\0\x4d\x10\0\0\0\0\0\0\x03\xe8\0\0\0\0\0\0\0\x04NTRF\0\0\0\0\0\0\0\x02R1\0\0\0\0\0\0\0\x03B22\
    \0\0\0\0\0\0\0\x04Rent\0\0\0\0\0\0\0\x04Home\0\0\0\0\0\0\0\x01\0\0\0\0\0\0\0\x04Flat\0\0\0\0\0\0\0\x03May\
    \xff\xff\xff\xff\xff\xff\xfe\xd4\x02\0\0\0\0\0\0\0\x06";

/// What files call account 4.
const BINDING: &[u8] = b"\x02\0\0\0\0\0\0\0\x04NL02\0\0\0\0\0\0\0\x04";

/// A reconciliation with the opening balance 2^64 + 2 and two marked splits.
const RECON: &[u8] =
    b"\x02\0\0\0\0\0\0\0\x03\0\0\0\0\0\0\x4d\x29\0\0\0\0\0\0\0\x01\0\0\0\0\0\0\0\x02\
    \0\0\0\0\0\0\0\x05\0\0\0\0\0\0\0\x02\0\0\0\0\0\0\0\x06\xff\xff\xff\xff\xff\xff\xff\xfc\
    \0\0\0\0\0\0\0\x08\0\0\0\0\0\0\0\x0a";

fn text(alloc: Global, characters: &str) -> Result<Text, OutOfMemory> {
    Ok(Text::of(String::from_str(alloc, characters)?))
}

fn day(number: i32) -> Result<Day, OutOfMemory> {
    Day::of_number(number).ok_or(OutOfMemory)
}

fn statement(alloc: Global) -> Result<Held, OutOfMemory> {
    Ok(Held {
        account: 3,
        account_text: text(alloc, "NL01")?,
        number: text(alloc, "A7")?,
        opening: None,
        closing: Some(250),
        day: day(19_727)?,
        ties: Some(false),
    })
}

/// What the line says.
fn said(alloc: Global) -> Result<StatementLine, OutOfMemory> {
    let mut parts = Many::new(alloc);
    parts.push(Part {
        category: text(alloc, "Flat")?,
        memo: text(alloc, "May")?,
        amount: -300,
    })?;
    Ok(StatementLine {
        day: day(19_727)?,
        value_day: day(19_728)?,
        amount: 1_000,
        kind: text(alloc, "NTRF")?,
        ref_own: text(alloc, "R1")?,
        ref_bank: text(alloc, "B22")?,
        text: text(alloc, "Rent")?,
        category: text(alloc, "Home")?,
        parts,
    })
}

fn line(alloc: Global) -> Result<Line, OutOfMemory> {
    Ok(Line {
        account: 3,
        statement: 9,
        ordinal: 2,
        body: said(alloc)?,
        state: LineState::Matched(6),
    })
}

fn binding(alloc: Global) -> Result<Binding, OutOfMemory> {
    Ok(Binding {
        text: text(alloc, "NL02")?,
        account: 4,
    })
}

fn reconciliation(alloc: Global) -> Result<Recon, OutOfMemory> {
    let mut marked = Many::new(alloc);
    for (split, quantity) in [(6, -4), (8, 10)] {
        marked.push(MarkedSplit { split, quantity })?;
    }
    Ok(Recon {
        account: 3,
        day: day(19_753)?,
        opening: 18_446_744_073_709_551_618,
        closing: 5,
        marked,
    })
}

/// Whether the body is that of the thing.
fn is_body<T: Field<Rows>>(alloc: Global, thing: &T, body: &[u8]) -> bool {
    match write_whole::<Rows, T>(alloc, FORMAT, thing) {
        Ok(written) => written.as_slice() == body,
        Err(_) => false,
    }
}

#[test]
fn things_are_written(rt: HostRuntime) -> Result<(), Fail> {
    let alloc = rt.alloc();
    assert!(rt; is_body(alloc, &statement(alloc)?, HELD));
    assert!(rt; is_body(alloc, &line(alloc)?, LINE));
    assert!(rt; is_body(alloc, &binding(alloc)?, BINDING));
    assert!(rt; is_body(alloc, &reconciliation(alloc)?, RECON));
    Ok(())
}
