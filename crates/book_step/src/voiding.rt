ghost use Rattle.std.specs.Prelude.{◌≡◌, ◌∷◌, [], OnOk, is_none, true};
ghost use Rattle.book_commodity.specs.Rules.{ReportsFirst};
ghost use Rattle.book_step.specs.Editing.{reconciled};
ghost use Rattle.book_step.specs.Outcome.{StepsTo};
ghost use Rattle.book_step.specs.Marking.{IsHeld};
ghost use Rattle.book_step.specs.VoidRules.{voided_transaction, not_voided, voided_transaction_of};
ghost use Rattle.book_step.specs.Voiding.{unvoid_transaction, void_transaction};

use crate::dismissing::putting;
use crate::editing::{check_reconciled, known};
use crate::present::Present;
use crate::split_search::Held;
use crate::{Answer, Refusal, Rule, Step};
use book_commodity::Text;
use book_splits::Txn;
use book_undo::{Edit, Thing};
use book_void::{restored, voided_for};

/// The transaction of this number is voided for the reason, and the lines that are matched with its splits are
/// dismissed. Broken where the book has no such transaction, where it is voided already, and, without force, where one
/// of its splits is reconciled; or out of memory.
pub(crate) fn void(
    present: &Present,
    number: u64,
    reason: Text,
    force: bool,
) -> Result<Step, Refusal>
    ensures { StepsTo present.now (void_transaction present.now number reason force) result }
{
    let old = known(present, number)?;
    check_changeable(number, force, old)?;
    let new = voided_for(present.alloc, old, reason)?;
    let edit = putting(present, number, old, new)?;
    Step::changing(present, 0, edit, Answer::Void)
}

/// The voided transaction of this number is brought back with the amounts that were kept of it, and each of its splits
/// is new. Broken where the book has no such transaction, and where it is not voided; or out of memory.
pub(crate) fn unvoid(present: &Present, number: u64) -> Result<Step, Refusal>
    ensures { StepsTo present.now (unvoid_transaction present.now number) result }
{
    let old = known(present, number)?;
    check_voided(number, old)?;
    let new = restored(present.alloc, old)?;
    let edit = Edit::Put(number, Thing::Txn(new));
    Step::changing(present, 0, edit, Answer::Unvoid)
}

/// The transaction under the number is not voided, and without force none of its splits is reconciled.
pub(crate) fn check_changeable(number: u64, force: bool, transaction: &Txn) -> Result<(), Rule>
    ensures rules { ReportsFirst
        (voided_transaction number transaction.now ∷ reconciled force transaction.now.splits [] ∷ []) result }
    ensures unvoided { OnOk result (is_none transaction.now.voided ≡ true) }
{
    check_not_voided(number, transaction)?;
    check_reconciled(force, transaction.splits.as_slice(), &[])
}

/// The transaction under the number is not voided.
pub(crate) fn check_not_voided(number: u64, transaction: &Txn) -> Result<(), Rule>
    ensures rules { ReportsFirst (voided_transaction number transaction.now ∷ []) result }
    ensures unvoided { OnOk result (is_none transaction.now.voided ≡ true) }
{
    match transaction.voided {
        Some(_) => Err(Rule::Voided {
            transaction: number,
        }),
        None => Ok(()),
    }
}

/// The transaction that has the split of this number is not voided.
pub(crate) fn check_holder_not_voided(
    present: &Present,
    number: u64,
    held: &Held,
) -> Result<(), Rule>
    requires { IsHeld present.now.book.transactions number held.now }
    ensures { ReportsFirst (voided_transaction_of present.now.book.transactions number ∷ []) result }
{
    present.known();
    check_not_voided(held.number, held.transaction)
}

/// The transaction under the number is voided.
fn check_voided(number: u64, transaction: &Txn) -> Result<(), Rule>
    ensures { ReportsFirst (not_voided number transaction.now ∷ []) result }
{
    match transaction.voided {
        Some(_) => Ok(()),
        None => Err(Rule::NotVoided {
            transaction: number,
        }),
    }
}
