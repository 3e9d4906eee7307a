ghost use Rattle.std.specs.Prelude.{◌≡◌, ℕ, ◌^◌, ◌<◌, ◌≤◌, List, length, Err, IfOk, OnErr};
ghost use Rattle.book_keeper.specs.Faults.{Rose};
ghost use Rattle.book_lines.specs.Loop.{text_of};
ghost use Rattle.book_lines.specs.Marks.{Mark, Answered, Memory, Keeper, IsAnswer, memory_answer, keeper_answer};

use book_commodity::{Bytes, OutOfMemory};
use std::alloc::Global;

/// The answer to a line for which the machine was out of memory.
pub const MEMORY: &[u8] = b"{\"refused\":\"memory\"}";

/// The answer to a line whose change could not be kept.
pub const KEEPER: &[u8] = b"{\"refused\":\"keeper\"}";

/// Why the machine gave no answer to a line: it was out of memory, or what is kept could not be changed.
#[derive(Clone, Copy, Debug, PartialEq, Eq)]
pub enum Unanswered {
    Memory,
    Keeper,
}

impl Unanswered {
    /// The answer in place of the machine's.
    pub fn text(self) -> &'static [u8]
        ensures { result.now ≡ text_of self }
    {
        match self {
            Unanswered::Memory => MEMORY,
            Unanswered::Keeper => KEEPER,
        }
    }
}

/// A machine that answers lines over what `K` keeps. `W` is a marker by which a crate above both may join them.
pub trait Machine<W, K> {
    /// From a state a line with a mark is answered by a text, and a state follows.
    ghost answers: { Self → List ℕ → Mark → List ℕ → Self → Type 0 };

    /// What is kept stands for the state.
    ghost stands: { Self → K → Type 0 };

    /// What is kept may be this after it was that, whatever lines were answered between.
    ghost follows: { K → K → Type 0 };

    /// The count of faults of what is kept.
    ghost faults: { K → ℕ };

    /// Answers a line of at most 8 MiB. Memory and Keeper say why there is no answer; the state is then what
    /// `answers` says for that mark.
    fn answer(&mut self, alloc: Global, keeper: &mut K, line: &[u8]) -> Result<Bytes, Unanswered>
        requires stands { stands self.old keeper.old }
        requires short { length line.now ≤ 2 ^ 23 }
        ensures answered { IfOk result (λ text. IsAnswer text × answers self.old line.now Answered text self.new) }
        ensures memory { result ≡ Err Unanswered.Memory → answers self.old line.now Memory memory_answer self.new }
        ensures keeper { result ≡ Err Unanswered.Keeper
            → answers self.old line.now Keeper keeper_answer self.new
            × Rose (faults keeper.old) (faults keeper.new) }
        ensures later { faults keeper.old ≤ faults keeper.new }
        ensures stands { stands self.new keeper.new }
        ensures follows { follows keeper.old keeper.new };

    /// Answers a line of more than 8 MiB, of which only the length is known. The state stays.
    fn too_long(&self, alloc: Global, size: u64) -> Result<Bytes, OutOfMemory>
        ensures answered { IfOk result (λ text. IsAnswer text
            × ((line : List ℕ) → length line ≡ size → 2 ^ 23 < length line
            → answers self.now line Answered text self.now)) }
        ensures memory { OnErr result ((line : List ℕ) → length line ≡ size → 2 ^ 23 < length line
            → answers self.now line Memory memory_answer self.now) };

    /// Where no line was answered, what is kept is as it was.
    ghost follows_itself: { (keeper : K) → follows keeper keeper };

    /// What follows on what followed on the first follows on the first.
    ghost follows_through: { (first second third : K) → follows first second → follows second third
        → follows first third };
}
