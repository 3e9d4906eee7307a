ghost use Rattle.std.specs.Prelude.{◌≡◌, List, IfErr, IfOk, IsTrue};
ghost use Rattle.book_keeper.specs.declared.row.Row.{Row};
ghost use Rattle.book_opening.specs.Opening.{WasRead};
ghost use Rattle.book_opening.specs.Reading.{IsReadable};
ghost use Rattle.book_opening.specs.State.{state_of};
ghost use Rattle.book_sound.specs.Soundness.{IsSoundBook};
ghost use Rattle.book_step.specs.State.{fresh_book as fresh_book_is};
ghost use Rattle.book_undo.specs.Book.{book_of};
ghost use Rattle.book_show.specs.Opening.{CheckedAs, HasBookCause, OpenedAs, book_error};

use book_broken::{Broken, first_broken_rule};
use book_commodity::OutOfMemory;
use book_keeper::Keeper;
use book_ledger::Registers;
use book_listings::PresentBook;
use book_opening::{OpenFault, Saved, read_rows};
use book_turns::fresh_book;
use book_undo::Plain;
use std::alloc::Global;

/// A book that was opened: what it has, and its version, the count of the changes so far.
#[derive(Drop)]
pub struct Opened {
    pub book: PresentBook,
    pub version: u64,
}

/// Why a book can't be opened: as `Engine::open` refuses rows, of which it asks the same, with the rule that is broken.
#[derive(Clone, Copy, Debug, PartialEq, Eq)]
pub enum BookError {
    /// The keeper failed.
    Keeper,
    /// The row of this key is missing, can't be read, or is one too many.
    BadRows { kind: u8, id: u64 },
    /// This is the first key at which the book is not sound, and the rule that is broken there.
    UnsoundBook(Broken),
    /// The program is out of memory.
    OutOfMemory,
}

/// The present book of the keeper's rows, which stay, with its version: those of the machine that opens from them, and
/// without rows the fresh book.
pub fn open_book<K: Keeper>(alloc: Global, keeper: &mut K) -> Result<Opened, BookError>
    ensures keeper { WasRead K.Keeper keeper.old keeper.new }
    ensures opened { IsTrue (K.sure keeper.new) → (rows : List Row) → K.holds keeper.old rows → OpenedAs rows result }
    ensures cause { HasBookCause (K.faults keeper.old) (K.faults keeper.new) result }
{
    match read_rows(alloc, keeper) {
        Ok(Some((_format, state))) => checked(alloc, state),
        Ok(None) => begin(alloc),
        Err(fault) => Err(book_error(fault)),
    }
}

/// The fresh book.
fn begin(alloc: Global) -> Result<Opened, BookError>
    ensures book { IfOk result (λ now. now.book ≡ fresh_book_is) }
    ensures version { IfOk result (λ now. now.version ≡ 0) }
    ensures memory { IfErr result (λ error. error ≡ BookError.OutOfMemory) }
{
    match fresh_book(alloc) {
        Ok(plain) => with_registers(alloc, plain, 0),
        Err(OutOfMemory) => Err(BookError::OutOfMemory),
    }
}

/// The book of a state that was read, or the first key at which that is unsound, with the rule that is broken there.
fn checked(alloc: Global, state: Saved) -> Result<Opened, BookError>
    requires { IsReadable (state_of state) }
    ensures { CheckedAs (state_of state) result }
{
    let mut state = state;
    match first_broken_rule(alloc, &mut state) {
        Ok(None) => {
            let Saved { plain, version, .. } = state;
            with_registers(alloc, plain, version)
        }
        Ok(Some(broken)) => Err(BookError::UnsoundBook(broken)),
        Err(OutOfMemory) => Err(BookError::OutOfMemory),
    }
}

/// A sound book with its registers, and its version.
fn with_registers(alloc: Global, plain: Plain, version: u64) -> Result<Opened, BookError>
    requires { IsSoundBook (book_of plain) }
    ensures book { IfOk result (λ now. now.book ≡ book_of plain) }
    ensures version { IfOk result (λ now. now.version ≡ version) }
    ensures memory { IfErr result (λ error. error ≡ BookError.OutOfMemory) }
{
    match Registers::of(alloc, &plain) {
        Ok(registers) => Ok(Opened {
            book: PresentBook::of(plain, registers),
            version,
        }),
        Err(OutOfMemory) => Err(BookError::OutOfMemory),
    }
}

/// The error of a keeper's rows that could not be read.
fn book_error(fault: OpenFault) -> BookError
    ensures { result ≡ book_error fault }
{
    match fault {
        OpenFault::Keeper => BookError::Keeper,
        OpenFault::BadRows { kind, id } => BookError::BadRows { kind, id },
        OpenFault::OutOfMemory => BookError::OutOfMemory,
    }
}
