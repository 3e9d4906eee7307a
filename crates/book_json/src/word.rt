ghost use Rattle.std.specs.Prelude.{◌≡◌};
ghost use Rattle.serde_json.specs.View.{view};
ghost use Rattle.book_json.specs.Forms.{among};
ghost use Rattle.book_json.specs.Words.{named, rows_of, word_of};

use serde_json::Value;

/// The value that the text stands for in a table of words, `None` where it is none of the words. Words are compared
/// byte for byte, and of two rows with one word the first counts.
pub fn named<W: Copy>(mut table: &[(&str, W)], text: &str) -> Option<W>
    ensures { result ≡ named (rows_of table.entry.now) text.now }
{
    while let [row, rest @ ..] = table {
        if text == row.0 {
            return Some(row.1);
        }
        table = rest;
    }
    None
}

/// The word for the value in a table of words, empty where no row has the value. Of two rows with one value the first
/// counts.
pub fn word_of<'a, W: Copy + PartialEq>(mut table: &[(&'a str, W)], value: W) -> &'a str
    ensures { result.now ≡ word_of W.eq (rows_of table.entry.now) value }
{
    while let [row, rest @ ..] = table {
        if row.1 == value {
            return row.0;
        }
        table = rest;
    }
    ""
}

/// The value that data stands for which is the text of one of the words; `None` for all other data.
pub(crate) fn among<W: Copy>(value: Value, table: &[(&str, W)]) -> Option<W>
    ensures { result ≡ among (rows_of table.now) (view value) }
{
    match value {
        Value::String(text) => named(table, text.as_str()),
        _ => None,
    }
}
