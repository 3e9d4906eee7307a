ghost use Rattle.std.specs.Prelude.{◌≡◌};
ghost use Rattle.bai2_read.specs.Summaries.{BeginsField};
ghost use Rattle.bai2_read.specs.Kinds.{body_of, is_record, kind_of, kind_of_code, without_slash};

use crate::kind::Kind;
use book_statement::{text_before, text_behind};

/// What a line is, and the fields of its record, each behind its comma.
#[tactic(auto, unfolding(crate::specs::Kinds::kind_of, crate::specs::Kinds::body_of))]
pub fn record_of(line: &str) -> (Kind, &str)
    ensures kind { result.0 ≡ kind_of line.now }
    ensures body { result.1.now ≡ body_of line.now }
    ensures begins { BeginsField result.1.now }
{
    if line.is_empty() {
        return (Kind::Blank, "");
    }
    let content = without_slash(line);
    if !is_record(content.as_bytes()) {
        return (Kind::NoRecord, "");
    }
    let digits = content.as_bytes();
    let code = (digits[0] - b'0') * 10 + (digits[1] - b'0');
    (kind_of_code(code), text_behind(content, 1))
}

/// The line without one slash at its end.
fn without_slash(line: &str) -> &str
    ensures { result.now ≡ without_slash line.now }
{
    let bytes = line.as_bytes();
    if !bytes.is_empty() && bytes[bytes.len() - 1] == b'/' {
        return text_before(line, bytes.len() - 1);
    }
    line
}

/// Whether the line is a code of two digits, alone or with a comma behind it.
fn is_record(content: &[u8]) -> bool
    ensures { result ≡ is_record content.now }
{
    content.len() >= 2
        && content[0].is_ascii_digit()
        && content[1].is_ascii_digit()
        && (content.len() == 2 || content[2] == b',')
}

/// The kind of a record by its code.
fn kind_of_code(code: u8) -> Kind
    ensures { result ≡ kind_of_code code }
{
    match code {
        1 => Kind::FileHeader,
        2 => Kind::GroupHeader,
        3 => Kind::AccountHeader,
        16 => Kind::Detail,
        49 => Kind::AccountTrailer,
        88 => Kind::Continuation,
        98 => Kind::GroupTrailer,
        99 => Kind::FileTrailer,
        _ => Kind::Unknown,
    }
}
