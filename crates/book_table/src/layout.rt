ghost use Rattle.std.specs.Prelude.{◌≡◌, ◌++◌, All, IfOk, IsUtf8, OnOk, if◌then◌else◌, map, nat_lt, string_bytes};
ghost use Rattle.book_commodity.specs.Day.{day_text};
ghost use Rattle.book_reports.specs.Layout.{printed, record_text};

use book_commodity::{Day, OutOfMemory, Text};
use csv::WriterBuilder;
use std::alloc::{AllocError, Global};

/// Adds a text in which each control character below U+0020 is a space.
pub(crate) fn add_printed(out: &mut String, text: &str) -> Result<(), AllocError>
    ensures { OnOk result (string_bytes out.new ≡ string_bytes out.old ++ printed text.now) }
{
    for letter in text.chars() {
        out.push(printed_letter(letter))?;
    }
    Ok(())
}

/// A character as it is printed: a control character below U+0020 as a space.
fn printed_letter(letter: char) -> char
    ensures { result ≡ (if nat_lt letter 32 then 32 else letter) }
{
    if letter < ' ' { ' ' } else { letter }
}

/// The text of a day.
pub fn day_cell(alloc: Global, day: Day) -> Result<Text, OutOfMemory>
    ensures { IfOk result (λ text. text ≡ day_text day) }
{
    let bytes = Vec::from_slice(alloc, &day.text())?;
    let Ok(text) = String::from_utf8(bytes) else {
        unreachable!()
    };
    Ok(Text::of(text))
}

/// Adds a record of comma-separated values, each of which is a text.
pub(crate) fn add_record(alloc: Global, out: &mut String, row: &[Text]) -> Result<(), OutOfMemory>
    ensures { OnOk result (string_bytes out.new ≡ string_bytes out.old ++ record_text row.now) }
{
    let Ok(record) = String::from_utf8(row_bytes(alloc, row)?) else {
        unreachable!()
    };
    out.push_str(record.as_str())?;
    Ok(())
}

/// The bytes of the record of a row, whose texts all are texts in UTF-8.
fn row_bytes(alloc: Global, row: &[Text]) -> Result<Vec<u8>, OutOfMemory>
    ensures bytes { IfOk result (λ bytes. bytes.items ≡ record_text row.now) }
    ensures utf8 { OnOk result (All IsUtf8 row.now) }
{
    let fields = fields_of(alloc, row)?;
    record_bytes(alloc, fields.as_slice())
}

/// The bytes of the texts of a row.
fn fields_of<'a>(alloc: Global, row: &'a [Text]) -> Result<Vec<&'a [u8]>, OutOfMemory>
    ensures fields { IfOk result (λ fields. map (λ field. field.now) fields.items ≡ row.now) }
    ensures utf8 { OnOk result (All IsUtf8 row.now) }
{
    let mut fields = Vec::new(alloc);
    for text in row {
        fields.push(text.as_str().as_bytes())?;
    }
    Ok(fields)
}

/// The bytes of a record of comma-separated values.
fn record_bytes(alloc: Global, fields: &[&[u8]]) -> Result<Vec<u8>, OutOfMemory>
    ensures { IfOk result (λ bytes. bytes.items ≡ record_text (map (λ field. field.now) fields.now)) }
{
    let mut writer = WriterBuilder::new().from_writer(Vec::new(alloc));
    let Ok(()) = writer.write_fields(fields) else {
        return Err(OutOfMemory);
    };
    let Ok(bytes) = writer.into_inner() else {
        return Err(OutOfMemory);
    };
    Ok(bytes)
}
