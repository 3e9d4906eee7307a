ghost use Rattle.std.specs.Prelude.{◌≡◌};
ghost use Rattle.qif_read.specs.Kinds.{is_header, is_register, is_switch, header_kind, code_of, kind_of, behind_code};

use crate::kind::{Code, LineKind, Topic};
use book_statement::text_behind;

/// What a line of the file is.
#[tactic(auto, unfolding(crate::specs::Kinds::kind_of))]
pub fn kind_of(line: &str) -> LineKind
    ensures { result ≡ kind_of line.now }
{
    match line.as_bytes() {
        [] => LineKind::Empty,
        [b'!', ..] => header_kind(line),
        [b'^', ..] => LineKind::End,
        [first, ..] => LineKind::Field(code_of(*first)),
    }
}

/// What a header begins.
fn header_kind(line: &str) -> LineKind
    ensures { result ≡ header_kind line.now }
{
    if is_register(line) {
        LineKind::Header(Topic::Register)
    } else if is_header(line, "!Account") {
        LineKind::Header(Topic::Accounts)
    } else if is_switch(line) {
        LineKind::Switch
    } else {
        LineKind::Header(Topic::Passed)
    }
}

/// Whether a line is the header of an account's transactions.
fn is_register(line: &str) -> bool
    ensures { result ≡ is_register line.now }
{
    is_header(line, "!Type:Bank")
        || is_header(line, "!Type:Cash")
        || is_header(line, "!Type:CCard")
        || is_header(line, "!Type:Oth A")
        || is_header(line, "!Type:Oth L")
}

/// Whether a line is a header that leaves the list as it is.
fn is_switch(line: &str) -> bool
    ensures { result ≡ is_switch line.now }
{
    is_header(line, "!Option:AutoSwitch") || is_header(line, "!Clear:AutoSwitch")
}

/// Whether a line is this header, without regard to the case of A to Z.
#[tactic(auto, unfolding(crate::specs::Kinds::is_header))]
fn is_header(line: &str, name: &str) -> bool
    ensures { result ≡ is_header line.now name.now }
{
    line.eq_ignore_ascii_case(name)
}

/// What a line gives whose first byte this is.
fn code_of(first: u8) -> Code
    ensures { result ≡ code_of first }
{
    match first {
        b'D' => Code::Date,
        b'T' => Code::Total,
        b'U' => Code::OtherTotal,
        b'N' => Code::Number,
        b'P' => Code::Payee,
        b'M' => Code::Memo,
        b'L' => Code::Category,
        b'S' => Code::Split,
        b'E' => Code::SplitMemo,
        b'$' => Code::SplitAmount,
        _ => Code::Other,
    }
}

/// What stands behind the code; nothing behind a first character beyond ASCII.
pub fn behind_code(line: &str) -> &str
    ensures { result.now ≡ behind_code line.now }
{
    match line.as_bytes() {
        [first, ..] if *first < 128 => text_behind(line, 0),
        _ => "",
    }
}
