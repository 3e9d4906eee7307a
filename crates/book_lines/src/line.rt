ghost use Rattle.std.specs.Prelude.{◌≡◌, ◌↔◌, ◌+◌, ◌==◌, ◌^◌, ◌<◌, ◌≤◌, ◌++◌, ℕ, List, [], length, IfOk, IsTrue};
ghost use Rattle.book_lines.specs.Lines.{is_blank};
ghost use Rattle.book_lines.specs.Room.{seen};

use book_commodity::OutOfMemory;
use std::alloc::Global;
use std::marker::Model;

/// The length of the longest line that is answered as it stands: 8 MiB.
pub const MAX_LINE: usize = 8_388_608;

/// The line that is being read. Its first 8 MiB are kept; the bytes past them are counted.
#[derive(Drop)]
pub struct Line {
    bytes: Vec<u8>,
    size: u64,
    blank: bool,
}

impl Model for Line {
    ghost use Rattle.std.specs.Prelude.{◌≤◌, ◌^◌};
    ghost use Rattle.std.specs.Vec.{vec_len, vec_capacity};
    ghost use Rattle.book_lines.specs.Room.{Seen};

    ghost Value = { Seen };

    ghost view = { λ l. record { front = l.bytes.items; size = l.size; blank = l.blank } };

    ghost invariant = { λ l. (vec_len l.bytes ≤ 2 ^ 23) × (2 ^ 23 ≤ vec_capacity l.bytes) };
}

impl Line {
    /// Room for one line, which is the last memory that reading lines takes.
    pub fn new(alloc: Global) -> Result<Line, OutOfMemory>
        ensures { IfOk result (λ line. line ≡ seen []) }
    {
        let bytes = Vec::with_capacity(alloc, MAX_LINE)?;
        Ok(Line {
            bytes,
            size: 0,
            blank: true,
        })
    }

    /// Begins a new line.
    pub fn clear(&mut self)
        ensures { self.new ≡ seen [] }
    {
        self.bytes.clear();
        self.size = 0;
        self.blank = true;
    }

    /// Adds bytes behind those that are there.
    pub fn extend(&mut self, segment: &[u8])
        requires { self.old.size + length segment.now < 2 ^ 64 }
        ensures { (line : List ℕ) → self.old ≡ seen line → self.new ≡ seen (line ++ segment.now) }
    {
        let kept = (MAX_LINE - self.bytes.len()).min(segment.len());
        let Ok(()) = self.bytes.extend_from_slice(&segment[..kept]) else {
            unreachable!()
        };
        self.size += segment.len() as u64;
        self.blank = self.blank && are_blank(segment);
    }

    /// The bytes that are kept.
    pub fn bytes(&self) -> &[u8]
        ensures value { result.now ≡ self.now.front }
        ensures short { length result.now ≤ 2 ^ 23 }
    {
        self.bytes.as_slice()
    }

    /// How many bytes the line has.
    pub fn size(&self) -> u64
        ensures { result ≡ self.now.size }
    {
        self.size
    }

    /// Whether the line has spaces, tabs and carriage returns alone.
    pub fn is_blank(&self) -> bool
        ensures { result ≡ self.now.blank }
    {
        self.blank
    }
}

fn are_blank(bytes: &[u8]) -> bool
    ensures { result ≡ is_blank bytes.now }
{
    bytes
        .iter()
        .all(|byte| matches!(*byte, b' ' | b'\t' | b'\r'))
}
