ghost use Rattle.std.specs.Prelude.{◌≡◌, ◌==◌, ◌∷◌, ◌++◌, ◌<◌, ◌≤◌, [], List, length, ℕ};
ghost use Rattle.std.specs.Prelude.{IfErr, IfNone, IfOk, IfSome, OnOk};
ghost use Rattle.std.specs.Fmt.{decimal};
ghost use Rattle.std.specs.IoError.{error_kind};
ghost use Rattle.std.specs.List.{after_first, before_first};
ghost use Rattle.std.specs.String.{string_bytes};
ghost use Rattle.gate_rows.specs.Counters.{counter_number, expanded, pieces_of, written};
ghost use Rattle.gate_rows.specs.RowWords.{number_of};

use std::alloc::Global;
use std::io;
use std::io::ErrorKind;

/// The error of a line that can't be read.
pub fn unread() -> io::Error
    ensures { error_kind result ≡ ErrorKind.InvalidData }
{
    io::Error::from(ErrorKind::InvalidData)
}

/// The error of a call that is out of memory.
pub fn memory() -> io::Error
    ensures { error_kind result ≡ ErrorKind.OutOfMemory }
{
    io::Error::from(ErrorKind::OutOfMemory)
}

/// The number that a word is.
pub fn number(word: &str) -> io::Result<u64>
    ensures value { IfOk result (λ number. number ≡ number_of word.now) }
    ensures unread { IfErr result (λ error. error_kind error ≡ ErrorKind.InvalidData) }
{
    match word.parse() {
        Ok(number) => Ok(number),
        Err(_) => Err(unread()),
    }
}

/// The number that a word is.
pub fn count(word: &str) -> io::Result<usize>
    ensures { IfErr result (λ error. error_kind error ≡ ErrorKind.InvalidData) }
{
    match word.parse() {
        Ok(number) => Ok(number),
        Err(_) => Err(unread()),
    }
}

/// The number that a text begins with, and what stands behind the blank after it.
pub fn counted(text: &str) -> io::Result<(u64, &str)>
    ensures { IfErr result (λ error. error_kind error ≡ ErrorKind.InvalidData) }
{
    let (word, rest) = text.split_once(' ').unwrap_or((text, ""));
    match word.parse() {
        Ok(number) => Ok((number, rest)),
        Err(_) => Err(unread()),
    }
}

/// A text in which `#FIRST+STEP#` stands for FIRST and so many times STEP.
pub fn expanded(alloc: Global, text: &str, times: u64) -> io::Result<String>
    ensures { IfOk result (λ all. string_bytes all ≡ expanded times text.now) }
{
    let mut all = String::new(alloc);
    let mut rest = text;
    'pieces: while let Some((piece, behind)) = cut(rest) {
        let (counter, more) = counter_and_rest(behind);
        all.push_str(piece)?;
        add_number(alloc, &mut all, counter, times)?;
        rest = more;
    }
    all.push_str(rest)?;
    Ok(all)
}

/// What stands before the first number sign of a text and what stands behind it, if it has one.
fn cut(text: &str) -> Option<(&str, &str)>
    ensures some { IfSome result (λ parts. pieces_of text.now ≡ parts.0.now ∷ pieces_of parts.1.now) }
    ensures shorter { IfSome result (λ parts. length parts.1.now < length text.now) }
    ensures none { IfNone result (pieces_of text.now ≡ text.now ∷ []) }
{
    match text.split_once('#') {
        Some((piece, behind)) => Some((piece, behind)),
        None => None,
    }
}

/// The counter that a text begins with, up to a number sign or the end, and what stands behind it.
#[tactic(auto, using(crate::proofs::CounterLemmas::counter_ends, crate::proofs::CounterLemmas::counter_ends_all))]
fn counter_and_rest(text: &str) -> (&str, &str)
    ensures step { (times : ℕ) → (piece : List ℕ) → written times (piece ∷ pieces_of text.now)
        ≡ piece ++ decimal (counter_number times result.0.now) ++ expanded times result.1.now }
    ensures shorter { length result.1.now ≤ length text.now }
{
    match cut(text) {
        Some((counter, more)) => (counter, more),
        None => (text, ""),
    }
}

/// Adds the number of a counter.
fn add_number(alloc: Global, all: &mut String, counter: &str, times: u64) -> io::Result<()>
    ensures { OnOk result (string_bytes all.new
        ≡ string_bytes all.old ++ decimal (counter_number times counter.now)) }
{
    let number = counter_of(counter, times)?;
    let digits = number.to_string(alloc)?;
    all.push_str(digits.as_str())?;
    Ok(())
}

/// FIRST and so many times STEP, of a text `FIRST+STEP`.
fn counter_of(text: &str, times: u64) -> io::Result<u64>
    ensures { IfOk result (λ number. number ≡ counter_number times text.now) }
{
    let (first, step) = first_and_step(text)?;
    Ok(number(first)?.saturating_add(step.saturating_mul(times)))
}

/// FIRST as a word, and STEP, of a text `FIRST+STEP`; the whole text and 0 where it has no plus.
fn first_and_step(text: &str) -> io::Result<(&str, u64)>
    ensures first { IfOk result (λ parts. parts.0.now ≡ before_first (λ byte. byte == 43) text.now) }
    ensures step { IfOk result (λ parts. parts.1 ≡ number_of (after_first (λ byte. byte == 43) text.now)) }
{
    match text.split_once('+') {
        Some((first, step)) => Ok((first, number(step)?)),
        None => Ok((text, 0)),
    }
}
