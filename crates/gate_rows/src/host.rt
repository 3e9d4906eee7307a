ghost use Rattle.std.specs.Prelude.{◌≡◌, [], true, false};

use std::alloc::{Alloc, Allocator, Global};
use std::cell::Cell;
use std::env::{Env, FillError};
use std::fmt::Display;
use std::io;
use std::io::{BufRead, Eprint, ErrorKind, Input, Lines, Print};

/// A host with words, an input and an output, which may fail. It notes how many bytes are written and how many lines
/// are said on standard error, and whether these are others than those that are wanted.
#[derive(Drop)]
pub struct Host<'a> {
    alloc: Global,
    words: &'a [Vec<u8>],
    input: &'a [u8],
    output: &'a [u8],
    line: &'a str,
    fails: bool,
    written: Cell<usize>,
    lines: Cell<usize>,
    differs: Cell<bool>,
}

impl<'a> Host<'a> {
    /// A host without words and input, that wants these bytes to be written, and this line, if it isn't empty, to be
    /// said on standard error.
    pub fn new(alloc: Global, output: &'a [u8], line: &'a str) -> Host<'a>
        ensures given { (result.words.now ≡ []) × (result.input.now ≡ []) }
        ensures wanted { (result.output ≡ output.entry) × (result.line ≡ line.entry) }
        ensures whole { result.fails ≡ false }
    {
        Host::with_words(alloc, &[], &[], output, line)
    }

    /// The same with words and an input.
    pub fn with_words(
        alloc: Global,
        words: &'a [Vec<u8>],
        input: &'a [u8],
        output: &'a [u8],
        line: &'a str,
    ) -> Host<'a>
        ensures given { (result.words ≡ words.entry) × (result.input ≡ input.entry) }
        ensures wanted { (result.output ≡ output.entry) × (result.line ≡ line.entry) }
        ensures whole { result.fails ≡ false }
    {
        Host {
            alloc,
            words,
            input,
            output,
            line,
            fails: false,
            written: Cell::new(0),
            lines: Cell::new(0),
            differs: Cell::new(false),
        }
    }

    /// Has each write to its output fail from now on.
    pub fn break_output(&mut self)
        ensures { self.new ≡ record self.old { fails = true } }
    {
        self.fails = true;
    }

    /// Whether all that is wanted came, and nothing else.
    pub fn is_content(&self) -> bool {
        let lines = usize::from(!self.line.is_empty());
        self.written.get() == self.output.len() && self.lines.get() == lines && !self.differs.get()
    }
}

impl<'a> Alloc for Host<'a> {
    type A = Global;

    fn alloc(&self) -> Global {
        self.alloc
    }
}

impl<'a> Env for Host<'a> {
    fn arg(&self, i: usize, buf: &mut [u8]) -> Result<usize, FillError> {
        let Some(word) = self.words.get(i) else {
            return Err(FillError::NotPresent);
        };
        if buf.len() < word.len() {
            return Err(FillError::TooLong);
        }
        buf[..word.len()].copy_from_slice(word.as_slice());
        Ok(word.len())
    }

    fn var(&self, _name: &str, _buf: &mut [u8]) -> Result<usize, FillError> {
        Err(FillError::NotPresent)
    }

    fn var_at(&self, _i: usize, _buf: &mut [u8]) -> Result<usize, FillError> {
        Err(FillError::NotPresent)
    }
}

impl<'a> Input for Host<'a> {
    type Reader = &'a [u8];

    fn read_line<A: Allocator + Clone>(&self, _buf: &mut String<A>) -> io::Result<usize> {
        Err(io::Error::from(ErrorKind::Unsupported))
    }

    fn lines<A: Allocator>(&self, alloc: A) -> Lines<&'a [u8], A> {
        self.input.lines(alloc)
    }

    fn reader(&self) -> &'a [u8] {
        self.input
    }
}

impl<'a> Print for Host<'a> {
    fn print<D: Display + Drop>(&self, _value: D) -> io::Result<()> {
        Err(io::Error::from(ErrorKind::Unsupported))
    }

    fn println<D: Display + Drop>(&self, _value: D) -> io::Result<()> {
        Err(io::Error::from(ErrorKind::Unsupported))
    }

    fn write_all(&self, bytes: &[u8]) -> io::Result<()> {
        if self.fails {
            return Err(io::Error::other("broken"));
        }
        let rest = self.output.get(self.written.get()..).unwrap_or(&[]);
        if !rest.starts_with(bytes) {
            self.differs.set(true);
        }
        let written = self.written.get().saturating_add(bytes.len());
        self.written.set(written);
        Ok(())
    }
}

impl<'a> Eprint for Host<'a> {
    fn eprint<D: Display + Drop>(&self, _value: D) -> io::Result<()> {
        Err(io::Error::from(ErrorKind::Unsupported))
    }

    fn eprintln<D: Display + Drop>(&self, value: D) -> io::Result<()> {
        if format!(in self.alloc; "{value}")?.as_str() != self.line {
            self.differs.set(true);
        }
        self.lines.set(self.lines.get().saturating_add(1));
        Ok(())
    }
}
