ghost use Rattle.std.specs.Prelude.{◌≡◌};
ghost use Rattle.book_rows.specs.Format.{format_byte, format_in};

/// The format of the rows of a book: the first byte of each body. Rows are written in format 2. In format 1 a
/// transaction has nothing behind its splits, and no split is voided.
#[derive(Clone, Copy, Debug, PartialEq, Eq)]
pub enum RowFormat {
    One,
    Two,
}

/// The first byte of each body that is written, that of format 2.
pub const WRITTEN_FORMAT: u8 = 2;

/// The first byte of a body of the format.
pub(crate) fn format_byte(format: RowFormat) -> u8
    ensures { result ≡ format_byte format }
{
    match format {
        RowFormat::One => 1,
        RowFormat::Two => 2,
    }
}

/// The format of a body, by its first byte. A body that does not begin with 1 counts as one of format 2.
pub fn format_in(body: &[u8]) -> RowFormat
    ensures { result ≡ format_in body.now }
{
    match body {
        [1, ..] => RowFormat::One,
        _ => RowFormat::Two,
    }
}
