ghost use Rattle.std.specs.Prelude.{◌≡◌, ◌∷◌, [], ◌++◌, All, IfOk, IsUtf8, OnOk, if◌then◌else◌, map, nat_lt};
ghost use Rattle.std.specs.Prelude.{string_bytes};
ghost use Rattle.book_commodity.specs.Amount.{amount_text};
ghost use Rattle.book_commodity.specs.Day.{day_text};
ghost use Rattle.book_reports.specs.Layout.{amount_line, printed, record_text, right};

use book_commodity::{Day, OutOfMemory};
use csv::WriterBuilder;
use std::alloc::{AllocError, Global};

/// Adds a text in which each control character below U+0020 is a space.
pub(crate) fn add_printed(out: &mut String, text: &str) -> Result<(), AllocError>
    ensures { OnOk result (string_bytes out.new ≡ string_bytes out.old ++ printed text.now) }
{
    for letter in text.chars() {
        out.push(printed_letter(letter))?;
    }
    Ok(())
}

/// A character as it is printed: a control character below U+0020 as a space.
fn printed_letter(letter: char) -> char
    ensures { result ≡ (if nat_lt letter 32 then 32 else letter) }
{
    if letter < ' ' { ' ' } else { letter }
}

/// Adds a text at the right end of so many places.
#[tactic(auto, unfolding(crate::specs::Layout::right))]
pub(crate) fn add_right(out: &mut String, places: usize, text: &str) -> Result<(), AllocError>
    ensures { OnOk result (string_bytes out.new ≡ string_bytes out.old ++ right places text.now) }
{
    for _place in 0..places.saturating_sub(text.len()) {
        out.push(' ')?;
    }
    out.push_str(text)
}

/// Adds the text of a day.
pub(crate) fn add_day(out: &mut String, day: Day) -> Result<(), AllocError>
    ensures { OnOk result (string_bytes out.new ≡ string_bytes out.old ++ day_text day) }
{
    let _ = day.number();
    let text = day.text();
    for byte in &text {
        out.push(*byte as char)?;
    }
    Ok(())
}

/// Adds the line of an amount in 24 places and what it is of.
#[tactic(auto, unfolding(crate::specs::Layout::amount_line))]
pub(crate) fn add_amount_line(out: &mut String, amount: &str, name: &str) -> Result<(), AllocError>
    ensures { OnOk result (string_bytes out.new ≡ string_bytes out.old ++ amount_line amount.now name.now) }
{
    add_right(out, 24, amount)?;
    out.push_str("  ")?;
    add_printed(out, name)?;
    out.push('\n')
}

/// Adds a record of comma-separated values, each of which is a text.
pub(crate) fn add_record(
    alloc: Global,
    out: &mut String,
    fields: &[&[u8]],
) -> Result<(), OutOfMemory>
    requires { All IsUtf8 (map (λ field. field.now) fields.now) }
    ensures { OnOk result
        (string_bytes out.new ≡ string_bytes out.old ++ record_text (map (λ field. field.now) fields.now)) }
{
    let Ok(record) = String::from_utf8(record_bytes(alloc, fields)?) else {
        unreachable!()
    };
    out.push_str(record.as_str())?;
    Ok(())
}

/// The bytes of a record of comma-separated values.
fn record_bytes(alloc: Global, fields: &[&[u8]]) -> Result<Vec<u8>, OutOfMemory>
    ensures { IfOk result (λ bytes. bytes.items ≡ record_text (map (λ field. field.now) fields.now)) }
{
    let mut writer = WriterBuilder::new().from_writer(Vec::new(alloc));
    let Ok(()) = writer.write_fields(fields) else {
        return Err(OutOfMemory);
    };
    let Ok(bytes) = writer.into_inner() else {
        return Err(OutOfMemory);
    };
    Ok(bytes)
}
