ghost use Rattle.std.specs.Prelude.{◌≡◌, ◌+◌, ◌<◌, ◌≤◌, length, take, drop, slice_index};
ghost use Rattle.book_statement.specs.Pieces.{after_chars, first_chars, past_continuations, is_continuation};

/// What stands behind the first `count` characters of a text, as bytes.
#[tactic(auto, using(crate::proofs::PieceLemmas::after_chars_le))]
pub fn after_chars(text: &[u8], count: usize) -> &[u8]
    ensures rest { result.now ≡ after_chars count text.now }
    ensures shorter { length result.now ≤ length text.now }
{
    let mut rest = text;
    let mut left = count;
    while left > 0 && !rest.is_empty() {
        rest = past_continuations(&rest[1..]);
        left -= 1;
    }
    rest
}

/// The first `count` characters of a text, as bytes.
pub fn first_chars(text: &[u8], count: usize) -> &[u8]
    ensures { result.now ≡ first_chars count text.now }
{
    &text[..text.len() - after_chars(text, count).len()]
}

/// The bytes from the next character on.
fn past_continuations(text: &[u8]) -> &[u8]
    ensures { result.now ≡ past_continuations text.now }
{
    for (i, byte) in text.iter().enumerate() {
        if !(128 <= *byte && *byte < 192) {
            return &text[i..];
        }
    }
    &text[text.len()..]
}

/// What stands behind the ASCII character at a place.
pub fn text_behind(text: &str, place: usize) -> &str
    requires within { place < length text.now }
    requires ascii { slice_index text.now place < 128 }
    ensures { result.now ≡ drop (place + 1) text.now }
{
    &text[place + 1..]
}

/// What stands before the ASCII character at a place.
pub fn text_before(text: &str, place: usize) -> &str
    requires within { place < length text.now }
    requires ascii { slice_index text.now place < 128 }
    ensures { result.now ≡ take place text.now }
{
    &text[..place]
}
