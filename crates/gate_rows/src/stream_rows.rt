use crate::counters::{number, unread};
use std::alloc::Global;
use std::io;

/// A row: its mark, the number with which the program ends, the line that it says on standard error, and the rest.
#[derive(Clone, Copy)]
pub struct StreamRow<'a> {
    pub mark: &'a str,
    pub number: u8,
    pub said: &'a str,
    pub rest: &'a str,
}

/// The row that a line `MARK NUMBER "LINE" REST` is.
pub fn stream_row(line: &str) -> io::Result<StreamRow<'_>> {
    let (mark, rest) = line.split_once(' ').unwrap_or((line, ""));
    let (word, rest) = rest.split_once(' ').unwrap_or((rest, ""));
    let Ok(number) = u8::try_from(number(word)?) else {
        return Err(unread());
    };
    match rest.strip_prefix('"').and_then(|rest| rest.split_once('"')) {
        Some((said, rest)) => Ok(StreamRow {
            mark,
            number,
            said,
            rest: rest.trim_start(),
        }),
        None => Err(unread()),
    }
}

/// The program's name and the words behind it, in which %XX is a byte.
pub fn host_words(alloc: Global, text: &str) -> io::Result<Vec<Vec<u8>>> {
    let mut words = vec![in alloc; "book".as_bytes().to_vec(alloc)?]?;
    for word in text.split(' ') {
        words.push(bytes_of(alloc, word)?)?;
    }
    Ok(words)
}

/// The bytes of a word, in which %XX is a byte.
fn bytes_of(alloc: Global, word: &str) -> io::Result<Vec<u8>> {
    let Some((before, rest)) = word.split_once('%') else {
        return Ok(word.as_bytes().to_vec(alloc)?);
    };
    let Some((digits, behind)) = rest.split_at_checked(2) else {
        return Err(unread());
    };
    let Ok(byte) = hex::decode(alloc, digits) else {
        return Err(unread());
    };
    let mut bytes = before.as_bytes().to_vec(alloc)?;
    bytes.extend_from_slice(byte.as_slice())?;
    bytes.extend_from_slice(behind.as_bytes())?;
    Ok(bytes)
}

/// A line whose answer names a member of so many times forty bytes.
fn add_line(lines: &mut String, count: u64) -> io::Result<()> {
    lines.push_str("{\"do\":\"account_drop\",\"account\":2,\"")?;
    for _ in 0..count {
        lines.push_str("a member that the command does not know.")?;
    }
    lines.push_str("\":1}\n")?;
    Ok(())
}

/// Lines whose answers name members of so many times forty bytes, by the numbers of a text.
pub fn long_lines(alloc: Global, numbers: &str) -> io::Result<String> {
    let mut lines = String::new(alloc);
    for word in numbers.split(' ') {
        add_line(&mut lines, number(word)?)?;
    }
    Ok(lines)
}
