ghost use Rattle.std.specs.Prelude.{◌≡◌, ◌+◌, ◌<◌, ◌≤◌, [], length, take, drop, slice_index};
ghost use Rattle.mt940_read.specs.LineField.{before_slashes, behind_slashes};

use book_statement::{text_before, text_behind};

/// What stands before the first double slash, or the whole text; and what stands behind it, or nothing.
pub fn parted_by_slashes(text: &str) -> (&str, &str)
    ensures before { result.0.now ≡ before_slashes text.now }
    ensures behind { result.1.now ≡ behind_slashes text.now }
{
    let place = slashes_place(text.as_bytes());
    if place < text.len() {
        (text_before(text, place), text_behind(text, place + 1))
    } else {
        (text, "")
    }
}

/// The place of the first double slash, or the length of the text.
fn slashes_place(text: &[u8]) -> usize
    ensures before { take result text.now ≡ before_slashes text.now }
    ensures behind { result < length text.now → drop (result + 2) text.now ≡ behind_slashes text.now }
    ensures none { result ≡ length text.now → behind_slashes text.now ≡ [] }
    ensures within { result ≤ length text.now }
    ensures slash { result < length text.now → slice_index text.now result ≡ 47 }
    ensures second { result < length text.now → slice_index text.now (result + 1) ≡ 47 }
    ensures room { result < length text.now → result + 1 < length text.now }
{
    for (place, _) in text.iter().enumerate() {
        if text[place..].starts_with(b"//") {
            return place;
        }
    }
    text.len()
}
