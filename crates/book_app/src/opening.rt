ghost use Rattle.std.specs.Prelude.{◌≡◌, ◌⊎◌, [], List, IfOk, IsTrue};
ghost use Rattle.book_http.specs.Routing.{all_routes};
ghost use Rattle.book_keeper.specs.declared.row.Row.{Row};
ghost use Rattle.book_lines.specs.Room.{seen};
ghost use Rattle.book_engine.specs.Opening.{HasOpenCause, Opened};
ghost use Rattle.book_engine.specs.Standing.{Stands};
ghost use Rattle.book_app.specs.StatusClause.{IsOpenedAt, RowsByAnswer, over};

use book_commodity::{OutOfMemory, Text};
use book_engine::{Engine, OpenError};
use book_http::Routes;
use book_keeper::{KeepError, Keeper};
use book_lines::LineRoom;
use book_words::part;
use std::alloc::Global;

/// The engine with the book that the keeper has at this path. Its rows are then of format 2, or there are none.
/// Keeper: the keeper failed, and its count of faults rose. The others are those of `Engine::open`.
pub fn open_book<K: Keeper>(alloc: Global, keeper: &mut K, book: &str) -> Result<Engine, OpenError>
    ensures honest { IsTrue (K.honest keeper.new) → IsTrue (K.honest keeper.old) }
    ensures sure { IsTrue (K.sure keeper.new) → IsTrue (K.sure keeper.old) }
    ensures before { RowsByAnswer (over K.Keeper keeper.old keeper.new) result }
    ensures opened { IsTrue (K.honest keeper.new) → (rows : List Row) → K.holds keeper.old rows → Opened rows result }
    ensures stands { IfOk result (Stands K.Keeper keeper.new) }
    ensures path { IsOpenedAt book.now (K.path_given keeper.new) result }
    ensures path_else { K.path_given keeper.new ≡ K.path_given keeper.old ⊎ K.path_given keeper.new ≡ book.now }
    ensures cause { HasOpenCause (K.faults keeper.old) (K.faults keeper.new) result }
{
    match keeper.open(book) {
        Ok(()) => Engine::open(alloc, keeper),
        Err(KeepError::Failed) => Err(OpenError::Keeper),
        Err(KeepError::OutOfMemory) => Err(OpenError::OutOfMemory),
    }
}

/// The room for what is read, once `clap` has parted the words, which are of the grammar.
pub fn room_after(alloc: Global, words: &[Text]) -> Result<LineRoom, OutOfMemory>
    ensures { IfOk result (λ room. room.line ≡ seen []) }
{
    part(alloc, words)?;
    LineRoom::new(alloc)
}

/// The routes of requests, once `clap` has parted the words, which are of the grammar.
pub fn routes_after(alloc: Global, words: &[Text]) -> Result<Routes, OutOfMemory>
    ensures { IfOk result (λ routes. routes ≡ all_routes) }
{
    part(alloc, words)?;
    Routes::new(alloc)
}
