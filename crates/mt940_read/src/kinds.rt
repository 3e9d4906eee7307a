ghost use Rattle.std.specs.Prelude.{◌≡◌, ◌+◌, ◌-◌, ◌<◌, IsTrue, length, drop, slice_index};
ghost use Rattle.mt940_read.specs.Kinds.{field_text, has_tag, kind_of, tag_of, tag_width};

use crate::tag::{Kind, Tag};
use book_statement::text_behind;

/// What a line of a message is.
#[tactic(auto, unfolding(crate::specs::Kinds::kind_of))]
pub fn kind_of(line: &[u8]) -> Kind
    ensures { result ≡ kind_of line.now }
{
    if line.starts_with(b":20:") {
        return Kind::Begins;
    }
    if has_tag(line) {
        return match tag_of(&line[1..tag_width(line) - 1]) {
            Some(tag) => Kind::Field(tag),
            None => Kind::Passed,
        };
    }
    if line == b"-".as_slice() || line.starts_with(b"-}") {
        return Kind::Ends;
    }
    Kind::More
}

/// What stands behind the tag of a line.
#[tactic(auto, unfolding(crate::specs::Kinds::field_text))]
pub fn field_text(line: &str) -> &str
    requires { IsTrue (has_tag line.now) }
    ensures { result.now ≡ field_text line.now }
{
    text_behind(line, tag_width(line.as_bytes()) - 1)
}

/// Whether a line begins a field: by a colon, two digits, perhaps a capital letter, and a colon.
fn has_tag(line: &[u8]) -> bool
    ensures { result ≡ has_tag line.now }
{
    byte_at(line, 0) == b':'
        && byte_at(line, 1).is_ascii_digit()
        && byte_at(line, 2).is_ascii_digit()
        && (byte_at(line, 3) == b':'
            || (byte_at(line, 3).is_ascii_uppercase() && byte_at(line, 4) == b':'))
}

/// How many bytes the tag of a line takes with its colons.
fn tag_width(line: &[u8]) -> usize
    ensures { result ≡ tag_width line.now }
{
    if byte_at(line, 3) == b':' { 4 } else { 5 }
}

/// The byte at a place of a line, 0 behind its end.
fn byte_at(line: &[u8], place: usize) -> u8
    ensures { result ≡ slice_index line.now place }
{
    if place < line.len() { line[place] } else { 0 }
}

/// The tag of this name; `None` for a tag that says nothing here.
#[tactic(auto, unfolding(crate::specs::Kinds::tag_of))]
fn tag_of(name: &[u8]) -> Option<Tag>
    ensures { result ≡ tag_of name.now }
{
    if name == b"21".as_slice() {
        Some(Tag::Related)
    } else if name == b"25".as_slice() || name == b"25P".as_slice() {
        Some(Tag::Account)
    } else if name == b"28".as_slice() || name == b"28C".as_slice() {
        Some(Tag::Number)
    } else if name == b"60F".as_slice() {
        Some(Tag::Opening { goes_on: false })
    } else if name == b"60M".as_slice() {
        Some(Tag::Opening { goes_on: true })
    } else if name == b"61".as_slice() {
        Some(Tag::Line)
    } else if name == b"86".as_slice() {
        Some(Tag::Text)
    } else if name == b"62F".as_slice() {
        Some(Tag::Closing { goes_on: false })
    } else if name == b"62M".as_slice() {
        Some(Tag::Closing { goes_on: true })
    } else if name == b"64".as_slice() {
        Some(Tag::Available)
    } else if name == b"65".as_slice() {
        Some(Tag::Forward)
    } else {
        None
    }
}
