ghost use Rattle.std.specs.Prelude.{◌≡◌, ◌+◌, ◌++◌, ◌↔◌, [], ℕ, List, codes, false, length, true, IfOk, IsTrue, None, Ok, OnOk};
ghost use Rattle.std.specs.String.{string_bytes};

use crate::counters::{count, counted, expanded};
use crate::rows::row_of;
use book_commodity::discard;
use book_keeper::RowKey;
use std::alloc::{AllocError, Global};
use std::io;

/// An answer that is wanted: how it begins and ends, and whether it is its beginning alone.
#[derive(Drop)]
pub struct Answer {
    pub line: usize,
    pub begins: String,
    pub ends: String,
    pub is_whole: bool,
}

impl Answer {
    /// Whether a line is this answer.
    pub fn is(&self, line: &str) -> bool
        ensures whole { self.now.is_whole ≡ true → (IsTrue result ↔ (line.now ≡ string_bytes self.now.begins)) }
        ensures part { self.now.is_whole ≡ false → IsTrue result → (between : List ℕ)
            × (line.now ≡ string_bytes self.now.begins ++ (between ++ string_bytes self.now.ends)) }
    {
        if self.is_whole {
            return line == self.begins.as_str();
        }
        let (begins, ends) = (self.begins.as_str(), self.ends.as_str());
        match line.strip_prefix(begins) {
            Some(rest) => rest.ends_with(ends),
            None => false,
        }
    }
}

/// A row that the keeper holds at the end.
#[derive(Drop)]
pub struct WantedRow {
    pub line: usize,
    pub key: RowKey,
    pub body: Vec<u8>,
}

/// What a run wants: its answers; how it ends; how many bytes of the input are not read; how many rows the keeper
/// holds, and which.
#[derive(Drop)]
pub struct Wanted {
    pub answers: Vec<Answer>,
    pub status: String,
    pub unread: Option<usize>,
    pub count: Option<usize>,
    pub rows: Vec<WantedRow>,
}

impl Wanted {
    /// No answers, and that all is done.
    pub fn new(alloc: Global) -> Result<Wanted, AllocError>
        ensures nothing { IfOk result (λ wanted. (wanted.answers.items ≡ []) × (wanted.rows.items ≡ [])) }
        ensures done { IfOk result (λ wanted. string_bytes wanted.status ≡ codes "done") }
        ensures open { IfOk result (λ wanted. (wanted.unread ≡ None) × (wanted.count ≡ None)) }
    {
        Ok(Wanted {
            answers: Vec::new(alloc),
            status: String::from_str(alloc, "done")?,
            unread: None,
            count: None,
            rows: Vec::new(alloc),
        })
    }

    /// Takes in a line that says what is wanted. Whether it is such a line.
    pub fn take(&mut self, alloc: Global, mark: &str, rest: &str, line: usize) -> io::Result<bool>
        ensures { result ≡ Ok false → self.new ≡ self.old }
    {
        match mark {
            "<" => self.add_answer(alloc, rest, true, line)?,
            "<c" => self.add_returned(alloc, rest, line)?,
            "<^" => self.add_answer(alloc, rest, false, line)?,
            "<$" => self.add_end(alloc, rest, line)?,
            "<*" => self.add_answers(alloc, rest, line)?,
            "ends" => self.status = String::from_str(alloc, rest)?,
            "unread" => self.unread = Some(count(rest)?),
            "rows" => self.count = Some(count(rest)?),
            "row" => self.rows.push(wanted_row(alloc, rest, line)?)?,
            _ => return Ok(false),
        }
        Ok(true)
    }

    /// Adds an answer.
    pub fn add_answer(
        &mut self,
        alloc: Global,
        text: &str,
        is_whole: bool,
        line: usize,
    ) -> io::Result<()>
        ensures added { OnOk result (length self.new.answers.items ≡ length self.old.answers.items + 1) }
        ensures rest { self.new ≡ record self.old { answers = self.new.answers } }
    {
        self.answers.push(Answer {
            line,
            begins: String::from_str(alloc, text)?,
            ends: String::new(alloc),
            is_whole,
        })?;
        Ok(())
    }

    /// Adds an answer that ends by a carriage return.
    fn add_returned(&mut self, alloc: Global, text: &str, line: usize) -> io::Result<()> {
        let text = format!(in alloc; "{text}\r")?;
        let added = self.add_answer(alloc, text.as_str(), true, line);
        discard(text, added)
    }

    /// Says how the answer that was added last ends, where only its beginning was said, or else how one more ends.
    fn add_end(&mut self, alloc: Global, text: &str, line: usize) -> io::Result<()> {
        if !self.is_open() {
            self.add_answer(alloc, "", false, line)?;
        }
        match self.answers.last_mut() {
            Some(answer) => Ok(answer.ends.push_str(text)?),
            None => Ok(()),
        }
    }

    /// Whether there is an answer, and of the last one the beginning alone was said.
    fn is_open(&self) -> bool {
        match self.answers.last() {
            Some(answer) => !answer.is_whole && answer.ends.is_empty(),
            None => false,
        }
    }

    /// Adds as many answers as the line's number says. Where it has no text, these are any answers.
    fn add_answers(&mut self, alloc: Global, rest: &str, line: usize) -> io::Result<()> {
        let (count, text) = counted(rest)?;
        for times in 0..count {
            let answer = expanded(alloc, text, times)?;
            let added = self.add_answer(alloc, answer.as_str(), !text.is_empty(), line);
            discard(answer, added)?;
        }
        Ok(())
    }
}

/// The row that a line `KIND ID HEX` wants.
fn wanted_row(alloc: Global, rest: &str, line: usize) -> io::Result<WantedRow> {
    let (key, body) = row_of(alloc, rest)?;
    Ok(WantedRow { line, key, body })
}
