use book_commodity::{Day, Many, OutOfMemory, Text};
use book_statement::{Statement, StatementLine, keys_of};
use std::alloc::Global;
use std::test::Fail;

/// A line of an amount, on a day.
fn line(alloc: Global, day: Day, amount: i64) -> StatementLine {
    StatementLine {
        day,
        value_day: day,
        amount,
        kind: Text::new(alloc),
        ref_own: Text::new(alloc),
        ref_bank: Text::new(alloc),
        text: Text::new(alloc),
        category: Text::new(alloc),
        parts: Many::new(alloc),
    }
}

/// A statement of three lines, of which the first and the last are equal.
fn statement(alloc: Global, day: Day) -> Result<Statement, OutOfMemory> {
    let mut lines = Many::new(alloc);
    for amount in [-300, 500, -300] {
        lines.push(line(alloc, day, amount))?;
    }
    Ok(Statement {
        account_text: Text::new(alloc),
        number: Text::new(alloc),
        currency: Text::new(alloc),
        opening: None,
        closing: None,
        day,
        ties: None,
        lines,
    })
}

// Equal lines are told apart by ordinals.
#[test]
fn equal_lines_have_ordinals(rt: HostRuntime) -> Result<(), Fail> {
    let day = Day::of_number(0).ok_or("a day of the range")?;
    let statement = statement(rt.alloc(), day)?;
    let keys = keys_of(rt.alloc(), 3, &statement)?;
    let [first, second, third] = keys.as_slice() else {
        return Err("three keys".into());
    };
    assert_eq!(rt; (first.ordinal, second.ordinal, third.ordinal), (0, 0, 1));
    Ok(())
}
