ghost use Rattle.std.specs.Prelude.{◌≡◌, ◌<◌, ◌≤◌, ◌==◌, take, slice_index, ◌∷◌, length, position};
ghost use Rattle.std.specs.Str.{IsUtf8};
ghost use Rattle.std.specs.Str.Lines.{strip_carriage_return};
ghost use Rattle.book_statement.specs.Texts.{behind_line, lines_of, without_spaces, trimmed};

use crate::pieces::{text_before, text_behind};
use memchr::memchr;

/// The first line of a text, trimmed, and what stands behind its line feed; nothing where it has none.
pub fn next_line(text: &str) -> (&str, &str)
    requires { 0 < length text.now }
    ensures lines { lines_of text.now ≡ result.0.now ∷ lines_of result.1.now }
    ensures rest { result.1.now ≡ behind_line text.now }
    ensures shorter { length result.1.now < length text.now }
    ensures utf8 { IsUtf8 result.1.now }
{
    match line_feed(text.as_bytes()) {
        Some(end) => (trimmed(text_before(text, end)), text_behind(text, end)),
        None => (trimmed(text), ""),
    }
}

/// The line without one carriage return at its end, and then without the spaces at its end.
fn trimmed(line: &str) -> &str
    ensures { result.now ≡ trimmed line.now }
{
    without_spaces(without_return(line))
}

/// The line without one carriage return at its end.
fn without_return(line: &str) -> &str
    ensures { result.now ≡ strip_carriage_return line.now }
{
    let bytes = line.as_bytes();
    if !bytes.is_empty() && bytes[bytes.len() - 1] == b'\r' {
        return text_before(line, bytes.len() - 1);
    }
    line
}

/// The line without the spaces at its end.
fn without_spaces(line: &str) -> &str
    ensures { result.now ≡ without_spaces line.now }
{
    let end = kept_len(line.as_bytes());
    if end == line.len() {
        return line;
    }
    text_before(line, end)
}

/// How many bytes stand before the spaces at the line's end.
fn kept_len(line: &[u8]) -> usize
    ensures kept { take result line.now ≡ without_spaces line.now }
    ensures within { result ≤ length line.now }
    ensures space { result < length line.now → slice_index line.now result ≡ 32 }
{
    let mut end = line.len();
    while end > 0 && line[end - 1] == b' ' {
        end -= 1;
    }
    end
}

/// The place of the first line feed.
fn line_feed(text: &[u8]) -> Option<usize>
    ensures { result ≡ position (λ b. b == 10) text.now }
{
    memchr(b'\n', text)
}
