ghost use Rattle.std.specs.Prelude.{◌≡◌, ◌++◌, IfOk, encode_utf8_all, string_bytes};
ghost use Rattle.book_statement.specs.Texts.{add_piece, text_of_bytes, without_mark};

use book_commodity::{OutOfMemory, Text};
use std::alloc::Global;
use std::mem;

/// The text of a file's bytes: the bytes as UTF-8 where they are UTF-8, else each byte as the character of its number;
/// one byte order mark in front is dropped.
pub fn as_text(alloc: Global, bytes: &[u8]) -> Result<Text, OutOfMemory>
    ensures { IfOk result (λ text. text ≡ text_of_bytes bytes.now) }
{
    match str::from_utf8(bytes) {
        Ok(text) => Ok(Text::of(String::from_str(alloc, without_mark(text))?)),
        Err(_) => Ok(Text::of(characters(alloc, bytes)?)),
    }
}

/// The text without one byte order mark in front.
fn without_mark(text: &str) -> &str
    ensures { result.now ≡ without_mark text.now }
{
    match text.strip_prefix("\u{feff}") {
        Some(rest) => rest,
        None => text,
    }
}

/// The text of the characters whose numbers the bytes are (ISO 8859-1).
fn characters(alloc: Global, bytes: &[u8]) -> Result<String, OutOfMemory>
    ensures { IfOk result (λ text. string_bytes text ≡ encode_utf8_all bytes.now) }
{
    let mut text = String::new(alloc);
    for byte in bytes {
        text.push(*byte as char)?;
    }
    Ok(text)
}

/// Joins a piece to the end of a text by one space, without the space where one of the two is empty.
pub fn add_piece(alloc: Global, text: &mut Text, piece: &str) -> Result<(), OutOfMemory>
    ensures { IfOk result (λ _. text.new ≡ add_piece text.old piece.now) }
{
    let mut string = mem::replace(text, Text::new(alloc)).into_string();
    if !string.is_empty() && !piece.is_empty() {
        string.push(' ')?;
    }
    string.push_str(piece)?;
    *text = Text::of(string);
    Ok(())
}
