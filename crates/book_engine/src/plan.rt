ghost use Rattle.std.specs.Prelude.{◌≡◌};
ghost use Rattle.book_engine.specs.Planned.{commits, with_moves};

use book_commodity::{Many, discard};
use book_free::Moves;
use book_keeper::Change;
use book_step::Answer;
use book_turns::Turn;
use std::marker::Model;

/// A command that breaks no rule, ready to be finished: how it moves from the state, which a question leaves; the
/// version after it; the whole answer; the changes of the rows; and what becomes of the free splits. Contracts see
/// exactly these.
#[derive(Drop)]
pub struct Plan {
    pub(crate) turn: Option<Turn>,
    pub(crate) version: u64,
    pub(crate) answer: Answer,
    pub(crate) changes: Many<Change>,
    pub(crate) moves: Moves,
}

impl Model for Plan {
    ghost use Rattle.std.specs.Coded.{codes};
    ghost use Rattle.book_undo.specs.contracts.edit.Edit as e;
    ghost use Rattle.book_engine.specs.Planned.{Planned, planned_by};

    ghost Value = { Planned };

    ghost coded = { Prim.hlevel (codes, e.the_row.coded) };

    ghost view = { planned_by };
}

impl Plan {
    /// The answer to the command.
    pub fn answer(&self) -> &Answer
        ensures { result.now ≡ self.now.answer }
    {
        &self.answer
    }

    /// Whether finishing it moves from the state, so that the keeper's rows are changed first.
    pub fn commits(&self) -> bool
        ensures { result ≡ commits self.now }
    {
        self.turn.is_some()
    }

    /// The version after the command.
    pub fn version(&self) -> u64
        ensures { result ≡ self.now.version }
    {
        self.version
    }

    /// The plan with what becomes of the free splits.
    pub(crate) fn with_moves(self, moves: Moves) -> Plan
        ensures { result ≡ with_moves moves self }
    {
        let Plan {
            turn,
            version,
            answer,
            changes,
            moves: none,
        } = self;
        let moves = discard(none, moves);
        Plan {
            turn,
            version,
            answer,
            changes,
            moves,
        }
    }

    /// The changes of the rows.
    pub(crate) fn changes(&self) -> &[Change]
        ensures { result.now ≡ self.now.changes }
    {
        self.changes.as_slice()
    }
}
