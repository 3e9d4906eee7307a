ghost use Rattle.std.specs.Prelude.{◌≡◌, [], IfOk};
ghost use Rattle.book_lines.specs.Room.{seen};

use crate::line::Line;
use book_commodity::OutOfMemory;
use std::alloc::Global;

/// How many bytes are read at a time.
pub const PIECE: usize = 65_536;

/// The memory that reading lines takes: room for one line of 8 MiB, and for the piece that is read at a time.
#[derive(Drop)]
pub struct LineRoom {
    pub(crate) line: Line,
    pub(crate) piece: Box<[u8; PIECE]>,
}

impl LineRoom {
    /// Takes the memory once; no line is begun in it. OutOfMemory where there is not enough.
    pub fn new(alloc: Global) -> Result<LineRoom, OutOfMemory>
        ensures empty { IfOk result (λ room. room.line ≡ seen []) }
    {
        let line = Line::new(alloc)?;
        let piece = Box::new(alloc, [0u8; PIECE])?;
        Ok(LineRoom { line, piece })
    }
}
