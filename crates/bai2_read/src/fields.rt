ghost use Rattle.std.specs.Prelude.{◌≡◌, ◌<◌, ◌≤◌, ◌==◌, nat_le, drop, length, slice_index};
ghost use Rattle.std.specs.List.{position_or_len};
ghost use Rattle.bai2_read.specs.Fields.{after_fields, field, field_count, up_to_comma};

use book_statement::{text_before, text_behind};

/// The place of the comma of the field that stands behind so many fields; the length where there is none.
#[tactic(auto, using(crate::proofs::FieldLemmas::after_more))]
fn place_after(body: &[u8], fields: usize) -> usize
    ensures rest { drop result body.now ≡ after_fields fields body.now }
    ensures within { result ≤ length body.now }
    ensures comma { result < length body.now → slice_index body.now result ≡ 44 }
{
    let mut left = fields;
    for (place, byte) in body.iter().enumerate() {
        if *byte == b',' {
            if left == 0 {
                return place;
            }
            left -= 1;
        }
    }
    body.len()
}

/// The place of the first comma; the length where there is none.
fn comma_in(text: &[u8]) -> usize
    ensures place { result ≡ position_or_len (λ b. b == 44) text.now }
    ensures within { result ≤ length text.now }
    ensures comma { result < length text.now → slice_index text.now result ≡ 44 }
{
    for (place, byte) in text.iter().enumerate() {
        if *byte == b',' {
            return place;
        }
    }
    text.len()
}

/// What stands behind so many fields, from the comma of the next one on.
pub fn after_fields(body: &[u8], fields: usize) -> &[u8]
    ensures { result.now ≡ after_fields fields body.now }
{
    &body[place_after(body, fields)..]
}

/// The field at a place, counted from 0; empty where there is none.
#[tactic(auto, unfolding(crate::specs::Fields::field))]
pub fn field(body: &[u8], place: usize) -> &[u8]
    ensures { result.now ≡ field place body.now }
{
    let rest = after_fields(body, place);
    if rest.is_empty() {
        return rest;
    }
    let behind = &rest[1..];
    &behind[..comma_in(behind)]
}

/// What stands behind so many fields and a comma, as text; empty where there is nothing.
pub fn text_after(body: &str, fields: usize) -> &str
    ensures { result.now ≡ drop 1 (after_fields fields body.now) }
{
    let place = place_after(body.as_bytes(), fields);
    if place == body.len() {
        return "";
    }
    text_behind(body, place)
}

/// The field at a place, counted from 0, as text; empty where there is none.
#[tactic(auto, unfolding(crate::specs::Fields::field))]
pub fn field_text(body: &str, place: usize) -> &str
    ensures { result.now ≡ field place body.now }
{
    first_field(text_after(body, place))
}

/// What stands before the first comma.
pub fn first_field(text: &str) -> &str
    ensures { result.now ≡ up_to_comma text.now }
{
    let comma = comma_in(text.as_bytes());
    if comma == text.len() {
        return text;
    }
    text_before(text, comma)
}

/// How many fields there are.
pub fn field_count(body: &[u8]) -> usize
    ensures { result ≡ field_count body.now }
{
    body.iter().filter(|byte| **byte == b',').count()
}

/// Whether there are so many fields at least.
#[tactic(auto, using(crate::proofs::FieldLemmas::count_more))]
pub fn has_fields(body: &[u8], least: usize) -> bool
    ensures { result ≡ nat_le least (field_count body.now) }
{
    let mut missing = least;
    for byte in body {
        if missing == 0 {
            return true;
        }
        if *byte == b',' {
            missing -= 1;
        }
    }
    missing == 0
}
