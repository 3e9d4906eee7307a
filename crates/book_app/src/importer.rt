ghost use Rattle.std.specs.Prelude.{◌≡◌, ◌≤◌, Err, IfOk, OnErr};
ghost use Rattle.book_keeper.specs.Faults.{Rose};
ghost use Rattle.book_lines.specs.Marks.{IsAnswer};
ghost use Rattle.book_statement.specs.Texts.{text_of_bytes};
ghost use Rattle.book_engine.specs.Acting.{IsChange};
ghost use Rattle.book_engine.specs.Books.{machine_kept};
ghost use Rattle.book_engine.specs.Machine.{step};
ghost use Rattle.book_engine.specs.Standing.{Stands};
ghost use Rattle.book_app.specs.Later.{IsLater};
ghost use Rattle.book_app.specs.Machine.{IsOutcome, import_command, import_of_text};

use crate::reply::{Answering, reply};
use crate::words::ImportWords;
use book_command::{Command, Update, What};
use book_commodity::{Bytes, OutOfMemory, Text};
use book_engine::Engine;
use book_keeper::Keeper;
use book_lines::{Machine, Unanswered};
use book_statement::as_text;
use std::alloc::Global;

/// An engine that statement files are imported into, as these words say.
#[derive(Drop)]
pub struct Importer {
    pub engine: Engine,
    pub words: ImportWords,
}

/// The command of an import of this text.
#[tactic(auto, unfolding(crate::specs::Machine::import_of_text))]
fn import_command(words: ImportWords, text: Text) -> Command
    ensures { result ≡ import_of_text words text }
{
    let import = Update::Import {
        format: words.format,
        text,
        account: words.account,
    };
    Command {
        at: None,
        what: What::Update(import),
    }
}

/// The answer to the import of a statement file of these bytes.
/// Keeper: the import changes the state, and the keeper failed to keep the change.
fn answer_file<K: Keeper>(
    alloc: Global,
    engine: &mut Engine,
    words: ImportWords,
    keeper: &mut K,
    bytes: &[u8],
) -> Result<Bytes, Unanswered>
    ensures answered { IfOk result (λ text. IsAnswer text
        × IsOutcome (step (machine_kept engine.old) (import_command words bytes.now))
        (machine_kept engine.old) text (machine_kept engine.new)) }
    ensures kept { OnErr result (machine_kept engine.new ≡ machine_kept engine.old) }
    ensures changes { result ≡ Err Unanswered.Keeper
        → IsChange (machine_kept engine.old) (step (machine_kept engine.old) (import_command words bytes.now)) }
    ensures failed { result ≡ Err Unanswered.Keeper → Rose (K.faults keeper.old) (K.faults keeper.new) }
    ensures later { K.faults keeper.old ≤ K.faults keeper.new }
    ensures stands { Stands K.Keeper keeper.old engine.old → Stands K.Keeper keeper.new engine.new }
    ensures follows { IsLater K.path_given K.honest K.sure keeper.old keeper.new }
{
    match as_text(alloc, bytes) {
        Ok(text) => reply(alloc, engine, keeper, import_command(words, text)),
        Err(OutOfMemory) => Err(Unanswered::Memory),
    }
}

impl<K: Keeper> Machine<Answering, K> for Importer {
    ghost use Rattle.std.specs.Prelude.{ℕ, refl};
    ghost use Rattle.book_engine.specs.Books.{machine_kept};
    ghost use Rattle.book_engine.specs.Standing.{Stands};
    ghost use Rattle.book_app.specs.Machine.{import_answers};
    ghost use Rattle.book_app.specs.Later.{IsLater, same_later, twice_later};

    ghost answers = { λ old bytes mark text new.
        import_answers old.words (machine_kept old.engine) bytes mark text (machine_kept new.engine) };

    ghost stands = { λ importer keeper. Stands K.Keeper keeper importer.engine };

    ghost follows = { λ old new. IsLater K.path_given K.honest K.sure old new };

    ghost faults = { λ keeper. K.faults keeper };

    ghost follows_itself = { λ keeper. same_later K.path_given K.honest K.sure keeper };

    ghost follows_through = { λ first second third one other.
        twice_later K.path_given K.honest K.sure first second third one other };

    fn answer(&mut self, alloc: Global, keeper: &mut K, bytes: &[u8]) -> Result<Bytes, Unanswered> {
        answer_file(alloc, &mut self.engine, self.words, keeper, bytes)
    }

    /// A longer file has no answer.
    fn too_long(&self, _alloc: Global, _size: u64) -> Result<Bytes, OutOfMemory> {
        Err(OutOfMemory)
    }
}
