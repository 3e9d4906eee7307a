ghost use Rattle.std.specs.Prelude.{◌≡◌, ℕ, ◌≤◌, ◌+ℤ◌, All, IfOk, OnOk, [], ◌∷◌, length, not, pos};
ghost use Rattle.book_balances.specs.Balances.{IsMoved, largest_move, moved};
ghost use Rattle.book_sound.proofs.SoundFacts.{IsAtMost};
ghost use Rattle.book_splits.specs.Balance.{quantity_on};
ghost use Rattle.book_splits.specs.Check.{HasAmounts};
ghost use Rattle.book_splits.specs.TransactionRules.{is_voided};

use book_commodity::{OutOfMemory, Table};
use book_splits::{Mark, Split};
use std::alloc::Global;

/// What splits give to accounts: the sums of their quantities, by the numbers of the accounts.
#[derive(Drop)]
pub(crate) struct Moves {
    sums: Table<i128>,
}

impl Moves {
    /// Nothing is given to any account; it takes no memory.
    pub(crate) fn none(alloc: Global) -> Moves
        ensures { (account : ℕ) → moved account result.sums.entries ≡ pos 0 }
    {
        Moves {
            sums: Table::new(alloc),
        }
    }

    /// What the splits give.
    pub(crate) fn of(alloc: Global, splits: &[Split]) -> Result<Moves, OutOfMemory>
        requires small { All HasAmounts splits.now }
        requires few { length splits.now ≤ 500 }
        ensures { IfOk result (λ moves. (account : ℕ)
            → moved account moves.sums.entries ≡ quantity_on account splits.now) }
    {
        let mut moves = Moves::none(alloc);
        for split in splits {
            moves.add_split(split)?;
        }
        Ok(moves)
    }

    /// What is given to an account.
    pub(crate) fn to(&self, account: u64) -> i128
        ensures { result ≡ moved account self.now.sums.entries }
    {
        match self.sums.find(account) {
            Some(sum) => *sum,
            None => 0,
        }
    }

    /// Gives the split's account its quantity more, unless the split is voided.
    fn add_split(&mut self, split: &Split) -> Result<(), OutOfMemory>
        requires { IsAtMost largest_move (moved split.now.account self.old.sums.entries) }
        ensures { OnOk result ((account : ℕ) → moved account self.new.sums.entries
            ≡ moved account self.old.sums.entries +ℤ quantity_on account (split.now ∷ [])) }
    {
        if !counts(split) {
            return Ok(());
        }
        self.add(split.account, split.quantity)?;
        Ok(())
    }

    /// Gives an account so much more.
    fn add(&mut self, account: u64, quantity: i64) -> Result<(), OutOfMemory>
        requires { IsAtMost largest_move (moved account self.old.sums.entries) }
        ensures { OnOk result (IsMoved account quantity self.old.sums.entries self.new.sums.entries) }
    {
        let sum = self.to(account) + i128::from(quantity);
        self.sums.reserve(1)?;
        let _ = self.sums.put(account, sum);
        Ok(())
    }
}

/// Whether the split counts on its account: it is not voided.
fn counts(split: &Split) -> bool
    ensures { result ≡ not (is_voided split.now.mark) }
{
    split.mark != Mark::Voided
}
