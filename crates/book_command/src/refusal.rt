ghost use Rattle.std.specs.Prelude.{◌≡◌};

use crate::Rule;
use book_commodity::OutOfMemory;
use std::alloc::AllocError;

/// Why a command was not accepted: a rule that it breaks; the keeper of the rows failed, and its count of faults rose
/// in that call; or out of memory. Nothing was changed.
#[derive(Drop)]
pub enum Refusal {
    Broken(Rule),
    Keeper,
    OutOfMemory,
}

impl From<Rule> for Refusal {
    ghost use Rattle.book_command.specs.declared.refusal.Refusal.TheVariants.{Broken};

    ghost from_gives = { λ rule refusal. refusal ≡ Broken rule };

    fn from(rule: Rule) -> Refusal {
        Refusal::Broken(rule)
    }
}

impl From<OutOfMemory> for Refusal {
    ghost use Rattle.book_command.specs.declared.refusal.Refusal.TheVariants as refusal;

    ghost from_gives = { λ memory given. given ≡ refusal.OutOfMemory };

    fn from(_memory: OutOfMemory) -> Refusal {
        Refusal::OutOfMemory
    }
}

impl From<AllocError> for Refusal {
    ghost use Rattle.book_command.specs.declared.refusal.Refusal.TheVariants as refusal;

    ghost from_gives = { λ memory given. given ≡ refusal.OutOfMemory };

    fn from(_memory: AllocError) -> Refusal {
        Refusal::OutOfMemory
    }
}
