ghost use Rattle.std.specs.Prelude.{◌≡◌, ◌++◌, ◌<◌, OnOk};
ghost use Rattle.book_export.specs.Names.{begins_as_more, begins_with_mark, begins_with_word, blank_bytes};
ghost use Rattle.book_export.specs.Names.{blank_bytes_left, encoded, hex_digit, is_blank_of_three, is_blank_of_two};
ghost use Rattle.book_export.specs.Names.{is_control, is_encoded, is_end_of_word, is_reserved, is_third_of_blank};
ghost use Rattle.book_export.specs.Names.{journal_name, masked, written, written_byte};

use book_commodity::OutOfMemory;

/// Adds the name of an account, as the journal has it.
pub(crate) fn push_account_name(out: &mut Vec<u8>, name: &[u8]) -> Result<(), OutOfMemory>
    ensures { OnOk result (out.new.items ≡ out.old.items ++ journal_name name.now) }
{
    if begins_as_more(name) {
        push_masked(out, name)
    } else {
        push_written(out, true, name)
    }
}

/// Adds a name with its first byte encoded, whatever it is.
fn push_masked(out: &mut Vec<u8>, name: &[u8]) -> Result<(), OutOfMemory>
    ensures { OnOk result (out.new.items ≡ out.old.items ++ masked name.now) }
{
    let Some((byte, rest)) = name.split_first() else {
        return Ok(());
    };
    push_encoded(out, *byte)?;
    push_written(out, false, rest)
}

/// Adds a name; whether it begins at an edge.
#[tactic(auto, unfolding(crate::specs::Names::written_from))]
pub(crate) fn push_written(out: &mut Vec<u8>, edge: bool, name: &[u8]) -> Result<(), OutOfMemory>
    ensures { OnOk result (out.new.items ≡ out.old.items ++ written edge name.now) }
{
    let mut at_edge = edge;
    let mut of_blank = 0;
    let mut left = name;
    while let Some((byte, rest)) = left.split_first() {
        let blank = blank_bytes_left(of_blank, left);
        push_byte(
            out,
            blank > 0 || is_encoded(at_edge || rest.is_empty(), *byte),
            *byte,
        )?;
        at_edge = *byte == b' ';
        of_blank = blank.saturating_sub(1);
        left = rest;
    }
    Ok(())
}

/// Adds a byte of a name: encoded, or as it is.
fn push_byte(out: &mut Vec<u8>, encode: bool, byte: u8) -> Result<(), OutOfMemory>
    ensures { OnOk result (out.new.items ≡ out.old.items ++ written_byte encode byte) }
{
    if encode {
        push_encoded(out, byte)
    } else {
        out.push(byte)?;
        Ok(())
    }
}

/// How many bytes at the front are of a Unicode blank, where so many are the rest of one.
fn blank_bytes_left(left: usize, text: &[u8]) -> usize
    ensures { result ≡ blank_bytes_left left text.now }
{
    left.max(blank_bytes(text))
}

/// How many bytes at the front are a Unicode blank that is none of ASCII; 0 where there is none.
pub(crate) fn blank_bytes(text: &[u8]) -> usize
    ensures { result ≡ blank_bytes text.now }
{
    let Some((first, rest)) = text.split_first() else {
        return 0;
    };
    let Some((second, rest)) = rest.split_first() else {
        return 0;
    };
    if is_blank_of_two(*first, *second) {
        return 2;
    }
    match rest.split_first() {
        Some((third, _)) if is_blank_of_three(*first, *second, *third) => 3,
        _ => 0,
    }
}

/// Whether two bytes are a blank in UTF-8.
fn is_blank_of_two(first: u8, second: u8) -> bool
    ensures { result ≡ is_blank_of_two first second }
{
    first == 0xC2 && (second == 0x85 || second == 0xA0)
}

/// Whether three bytes are a blank in UTF-8.
fn is_blank_of_three(first: u8, second: u8, third: u8) -> bool
    ensures { result ≡ is_blank_of_three first second third }
{
    first == 0xE1 && second == 0x9A && third == 0x80
        || first == 0xE2 && second == 0x80 && is_third_of_blank(third)
        || first == 0xE2 && second == 0x81 && third == 0x9F
        || first == 0xE3 && second == 0x80 && third == 0x80
}

/// Whether a byte is the third one of a blank from U+2000 on.
fn is_third_of_blank(third: u8) -> bool
    ensures { result ≡ is_third_of_blank third }
{
    0x80 <= third && third <= 0x8A || third == 0xA8 || third == 0xA9 || third == 0xAF
}

/// Adds a byte percent-encoded.
fn push_encoded(out: &mut Vec<u8>, byte: u8) -> Result<(), OutOfMemory>
    ensures { OnOk result (out.new.items ≡ out.old.items ++ encoded byte) }
{
    out.push(b'%')?;
    out.push(hex_digit(byte / 16))?;
    out.push(hex_digit(byte % 16))?;
    Ok(())
}

/// A digit of a number in base 16.
fn hex_digit(digit: u8) -> u8
    requires { digit < 16 }
    ensures { result ≡ hex_digit digit }
{
    if digit < 10 {
        b'0' + digit
    } else {
        b'A' - 10 + digit
    }
}

/// Whether a byte of a name is encoded, at an edge or within.
fn is_encoded(edge: bool, byte: u8) -> bool
    ensures { result ≡ is_encoded edge byte }
{
    is_reserved(byte) || byte == b' ' && edge
}

/// Whether a byte of a name is encoded wherever it stands.
fn is_reserved(byte: u8) -> bool
    ensures { result ≡ is_reserved byte }
{
    is_control(byte) || byte == b'"' || byte == b'%' || byte == b':' || byte == b';'
}

/// Whether a byte is a control character of ASCII.
pub(crate) fn is_control(byte: u8) -> bool
    ensures { result ≡ is_control byte }
{
    byte < 32 || byte == 127
}

/// Whether a posting to an account with this name would begin as something else.
fn begins_as_more(name: &[u8]) -> bool
    ensures { result ≡ begins_as_more name.now }
{
    begins_with_mark(name)
        || begins_with_word(name, b"assert")
        || begins_with_word(name, b"check")
        || begins_with_word(name, b"expr")
}

/// Whether the first byte would be read as a mark or a bracket.
fn begins_with_mark(name: &[u8]) -> bool
    ensures { result ≡ begins_with_mark name.now }
{
    match name.split_first() {
        Some((byte, _)) => matches!(*byte, b'!' | b'(' | b'*' | b'<' | b'['),
        None => false,
    }
}

/// Whether a word is the first of the name.
fn begins_with_word(name: &[u8], word: &[u8]) -> bool
    ensures { result ≡ begins_with_word name.now word.now }
{
    name.starts_with(word) && is_end_of_word(&name[word.len()..])
}

/// Whether nothing follows, or a blank.
fn is_end_of_word(rest: &[u8]) -> bool
    ensures { result ≡ is_end_of_word rest.now }
{
    match rest.split_first() {
        Some((byte, _)) => *byte == b' ',
        None => true,
    }
}
