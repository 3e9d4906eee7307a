ghost use Rattle.std.specs.Prelude.{◌≡◌, ◌∷◌, [], ◌++◌, OnOk};
ghost use Rattle.book_export.specs.Texts.{begins_as_more, code, line_byte, note, shown, shown_byte};

use crate::names::{blank_bytes, is_control};
use book_commodity::OutOfMemory;

/// Where a text stands in the journal: as the num or the description of a transaction, or as the memo of a posting.
#[derive(Clone, Copy, Debug, PartialEq, Eq)]
pub(crate) enum Place {
    Code,
    Description,
    Memo,
}

/// Adds a text as it stands at a place.
#[tactic(auto, unfolding(crate::specs::Texts::shown))]
pub(crate) fn push_shown(out: &mut Vec<u8>, place: Place, text: &[u8]) -> Result<(), OutOfMemory>
    ensures { OnOk result (out.new.items ≡ out.old.items ++ shown place text.now) }
{
    for byte in text {
        push_shown_byte(out, place, *byte)?;
    }
    Ok(())
}

/// Adds a byte of a text.
fn push_shown_byte(out: &mut Vec<u8>, place: Place, byte: u8) -> Result<(), OutOfMemory>
    ensures { OnOk result (out.new.items ≡ out.old.items ++ shown_byte place byte) }
{
    match (place, byte) {
        (Place::Code, b')') => out.extend_from_slice(b"%29")?,
        (Place::Description, b';') => out.extend_from_slice(b"%3B")?,
        (Place::Memo, b':') => out.extend_from_slice(b" :")?,
        (Place::Memo, b'[') => out.extend_from_slice(b"[ ")?,
        _ => out.push(line_byte(byte))?,
    }
    Ok(())
}

/// The byte, or a blank for a control character.
fn line_byte(byte: u8) -> u8
    ensures { line_byte byte ≡ result ∷ [] }
{
    if is_control(byte) { b' ' } else { byte }
}

/// Whether a description needs a num before it, even an empty one.
fn begins_as_more(description: &[u8]) -> bool
    ensures { result ≡ begins_as_more description.now }
{
    match description.split_first() {
        Some((byte, _)) => {
            is_control(*byte)
                || matches!(*byte, b' ' | b'!' | b'(' | b'*')
                || blank_bytes(description) > 0
        }
        None => false,
    }
}

/// Adds the num of a transaction in brackets; nothing where there is none and none is needed.
pub(crate) fn push_code(
    out: &mut Vec<u8>,
    num: &[u8],
    description: &[u8],
) -> Result<(), OutOfMemory>
    ensures { OnOk result (out.new.items ≡ out.old.items ++ code num.now description.now) }
{
    if num.is_empty() && !begins_as_more(description) {
        return Ok(());
    }
    out.push(b'(')?;
    push_shown(out, Place::Code, num)?;
    out.extend_from_slice(b") ")?;
    Ok(())
}

/// Adds the memo of a split as a comment; nothing where there is none.
pub(crate) fn push_note(out: &mut Vec<u8>, memo: &[u8]) -> Result<(), OutOfMemory>
    ensures { OnOk result (out.new.items ≡ out.old.items ++ note memo.now) }
{
    if memo.is_empty() {
        return Ok(());
    }
    out.extend_from_slice(b"  ; ")?;
    push_shown(out, Place::Memo, memo)
}
