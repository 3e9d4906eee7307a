ghost use Rattle.book_step.specs.Soundness.{IsSound};

use book_undo::Plain;
use std::alloc::Global;
use std::marker::Model;

/// The present state of the machine: its book, borrowed, the number that the next thing gets, and the count of the
/// changes so far; and where memory is taken from. Contracts see the state, which is sound.
#[derive(Drop)]
pub(crate) struct Present<'a> {
    pub(crate) alloc: Global,
    pub(crate) plain: &'a Plain,
    pub(crate) next: u64,
    pub(crate) version: u64,
}

impl<'a> Model for Present<'a> {
    ghost use Rattle.book_step.specs.State.{State, state_of};
    ghost use Rattle.book_step.specs.Soundness.{IsSound};

    ghost Value = { State };

    ghost view = { λ p. state_of p.plain.now p.next p.version };

    ghost invariant = { λ p. IsSound (state_of p.plain.now p.next p.version) };
}

impl<'a> Present<'a> {
    /// The state is sound.
    pub(crate) fn known(&self)
        ensures { IsSound self.now }
    {
        let _ = self.plain.transactions.len();
    }
}
