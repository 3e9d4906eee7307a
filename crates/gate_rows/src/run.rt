ghost use Rattle.std.specs.Prelude.{◌≡◌, ◌≤◌, ◌+◌, ℕ, List, [], ◌∷◌, false, IfOk, None, Some, Ok, length, take};
ghost use Rattle.std.specs.Prelude.{slice_get, slice_range};
ghost use Rattle.std.specs.List.{list_any};
ghost use Rattle.gate_rows.specs.Faults.{is_keeper_fault};

use crate::answers::Wanted;
use crate::counters::{count, counted, expanded, number, unread};
use book_commodity::{Many, Text};
use std::alloc::{AllocError, Global};
use std::io;

/// The calls that may fail: reads of the input or of a link, writes of the output or of a link, commits of the keeper,
/// and all of its calls, and calls for the next link.
#[derive(Clone, Copy, PartialEq, Eq)]
pub enum Sort {
    Read,
    Write,
    Commit,
    Call,
    Accept,
}

/// A call that fails: its sort, and its number among the calls of this sort, counted from 1.
#[derive(Clone, Copy)]
pub struct Fault {
    pub sort: Sort,
    pub number: u64,
}

/// The run is made again for each call of a sort, up to a number: that call fails.
#[derive(Clone, Copy)]
pub struct Each {
    pub sort: Sort,
    pub last: u64,
    pub line: usize,
}

/// What a run is given, and what it wants.
#[derive(Drop)]
pub struct Run {
    pub line: usize,
    pub words: Vec<Text>,
    pub input: Vec<u8>,
    /// The places in the input at which links begin; each ends where the next one begins.
    pub links: Vec<usize>,
    pub piece: usize,
    pub faults: Vec<Fault>,
    pub each: Option<Each>,
    /// Whether the file is left as where the program is killed: it is not closed.
    pub is_killed: bool,
    pub wanted: Wanted,
}

impl Run {
    /// A run of `run household.book` without input, which begins at this line of the file.
    pub fn new(alloc: Global, line: usize) -> io::Result<Run>
        ensures at { IfOk result (λ run. run.line ≡ line) }
        ensures nothing { IfOk result (λ run. (run.input.items ≡ []) × (run.faults.items ≡ [])) }
        ensures plain { IfOk result (λ run. (run.each ≡ None) × (run.is_killed ≡ false)) }
    {
        Ok(Run {
            line,
            words: words_of(alloc, "run household.book")?,
            input: Vec::new(alloc),
            links: Vec::new(alloc),
            piece: 4096,
            faults: Vec::new(alloc),
            each: None,
            is_killed: false,
            wanted: Wanted::new(alloc)?,
        })
    }

    /// The numbers of the calls of a sort that fail, and of one more.
    pub fn failing(
        &self,
        alloc: Global,
        sort: Sort,
        more: Option<Fault>,
    ) -> Result<Many<u64>, AllocError> {
        let all = self.faults.iter().copied().chain(more);
        let numbers = all
            .filter(|fault| fault.sort == sort)
            .map(|fault| fault.number)
            .collect(alloc)?;
        Ok(Many::of(numbers))
    }

    /// The bytes of the input proper: those before the first link.
    pub fn read_input(&self) -> &[u8]
        ensures whole { self.now.links.items ≡ [] → result.now ≡ self.now.input.items }
        ensures first { (first : ℕ) (more : List ℕ) → self.now.links.items ≡ first ∷ more
            → first ≤ length self.now.input.items → result.now ≡ take first self.now.input.items }
    {
        let end = self.links.first().copied().unwrap_or(self.input.len());
        self.input.get(..end).unwrap_or(&[])
    }

    /// The bytes of the link at a place of the links.
    pub fn link(&self, place: usize) -> &[u8]
        ensures { (first next : ℕ) → slice_get self.now.links.items place ≡ Some first
            → slice_get self.now.links.items (place + 1) ≡ Some next → first ≤ next
            → next ≤ length self.now.input.items → result.now ≡ slice_range self.now.input.items first next }
    {
        let first = self.links.get(place).copied().unwrap_or(self.input.len());
        let next = self.links.get(place.saturating_add(1)).copied();
        self.input
            .get(first..next.unwrap_or(self.input.len()))
            .unwrap_or(&[])
    }

    /// Whether a call of the keeper is to fail.
    pub fn has_keeper_fault(&self) -> bool
        ensures { result ≡ list_any is_keeper_fault self.now.faults.items }
    {
        self.faults.iter().any(|fault| fault.sort == Sort::Commit || fault.sort == Sort::Call)
    }

    /// Takes in a line that says what the run is given. Whether it is such a line.
    pub fn take_given(
        &mut self,
        alloc: Global,
        mark: &str,
        rest: &str,
        line: usize,
    ) -> io::Result<bool>
        ensures { result ≡ Ok false → self.new ≡ self.old }
    {
        match mark {
            "words" => self.words = words_of(alloc, rest)?,
            "piece" => self.piece = count(rest)?.max(1),
            "link" => self.links.push(self.input.len())?,
            ">" => self.add_input(rest, "\n")?,
            ">c" => self.add_input(rest, "\r\n")?,
            "-" => self.add_input(rest, "")?,
            ">*" => self.add_many(alloc, rest, "\n")?,
            "-*" => self.add_many(alloc, rest, "")?,
            "x" => self.add_bytes(alloc, rest, 1)?,
            "x*" => self.add_many_bytes(alloc, rest)?,
            "fails" => self.add_faults(rest)?,
            "each" => self.each = Some(each_of(rest, line)?),
            "killed" => self.is_killed = true,
            _ => return Ok(false),
        }
        Ok(true)
    }

    /// Adds a text, and what stands behind it, to the input.
    fn add_input(&mut self, text: &str, behind: &str) -> io::Result<()> {
        self.input.extend_from_slice(text.as_bytes())?;
        self.input.extend_from_slice(behind.as_bytes())?;
        Ok(())
    }

    /// Adds a text so many times as the line's number says.
    fn add_many(&mut self, alloc: Global, rest: &str, behind: &str) -> io::Result<()> {
        let (count, text) = counted(rest)?;
        let has_counters = text.contains('#');
        for times in 0..count {
            if has_counters {
                let line = expanded(alloc, text, times)?;
                self.add_input(line.as_str(), behind)?;
            } else {
                self.add_input(text, behind)?;
            }
        }
        Ok(())
    }

    /// Adds bytes, which are written as hexadecimal digits, so many times as the line's number says.
    fn add_many_bytes(&mut self, alloc: Global, rest: &str) -> io::Result<()> {
        let (count, digits) = counted(rest)?;
        self.add_bytes(alloc, digits, count)
    }

    /// Adds bytes, which are written as hexadecimal digits, so many times.
    fn add_bytes(&mut self, alloc: Global, digits: &str, count: u64) -> io::Result<()> {
        let Ok(bytes) = hex::decode(alloc, digits) else {
            return Err(unread());
        };
        for _ in 0..count {
            self.input.extend_from_slice(bytes.as_slice())?;
        }
        Ok(())
    }

    /// Adds the calls that the line names.
    fn add_faults(&mut self, rest: &str) -> io::Result<()> {
        let (word, numbers) = rest.split_once(' ').unwrap_or((rest, ""));
        let sort = sort_of(word)?;
        for word in numbers.split(' ') {
            let number = number(word)?;
            self.faults.push(Fault { sort, number })?;
        }
        Ok(())
    }
}

/// The sort of calls that a word names.
fn sort_of(word: &str) -> io::Result<Sort> {
    match word {
        "read" => Ok(Sort::Read),
        "write" => Ok(Sort::Write),
        "commit" => Ok(Sort::Commit),
        "call" => Ok(Sort::Call),
        "accept" => Ok(Sort::Accept),
        _ => Err(unread()),
    }
}

/// The calls that a line `each` names.
fn each_of(rest: &str, line: usize) -> io::Result<Each> {
    let (word, last) = rest.split_once(' ').unwrap_or((rest, ""));
    Ok(Each {
        sort: sort_of(word)?,
        last: number(last)?,
        line,
    })
}

/// The words of a line, between which a blank stands. One between quotes may have blanks, or be empty.
fn words_of(alloc: Global, text: &str) -> io::Result<Vec<Text>> {
    let mut words = Vec::new(alloc);
    let mut left = text;
    for _ in 0..text.len() {
        if left.is_empty() {
            break;
        }
        let (word, rest) = first_word(left);
        words.push(Text::of(String::from_str(alloc, word)?))?;
        left = rest;
    }
    Ok(words)
}

/// The first word of a text, and what stands behind it and its blank.
fn first_word(text: &str) -> (&str, &str) {
    match text.strip_prefix('"') {
        Some(quoted) => {
            let (word, rest) = quoted.split_once('"').unwrap_or((quoted, ""));
            (word, rest.trim_start())
        }
        None => text.split_once(' ').unwrap_or((text, "")),
    }
}
