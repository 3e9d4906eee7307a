ghost use Rattle.std.specs.Prelude.{◌≡◌, true, [], IfOk, OnOk};
ghost use Rattle.std.specs.Ordering.{nat_cmp};
ghost use Rattle.book_check.specs.Rising.{Rise};
ghost use Rattle.book_check.specs.Seen.{Adds, is_seen};

use crate::seen::Seen;
use book_commodity::OutOfMemory;
use std::alloc::Global;
use std::marker::Model;

/// The numbers that a walk has come by. Most numbers rise: those above all before them stand in a list, and only the
/// others in a set. Contracts see the list of them all.
#[derive(Drop)]
pub(crate) struct Numbers {
    rising: Vec<u64>,
    others: Seen<u64>,
    // Above all of them.
    bound: u128,
}

impl Model for Numbers {
    ghost use Rattle.std.specs.Prelude.{◌≡◌, ◌<◌, ◌++◌, true, ℕ, List};
    ghost use Rattle.std.specs.Ordering.{nat_cmp};
    ghost use Rattle.book_check.specs.Rising.{AllUnder, Rise};
    ghost use Rattle.book_check.specs.Seen.{is_seen};

    ghost Value = { List ℕ };

    ghost view = { λ n. n.rising.items ++ n.others };

    ghost invariant = { λ n. Rise n.rising.items × AllUnder n.bound n.rising.items
        × ((number : ℕ) → is_seen nat_cmp n.others number ≡ true → number < n.bound) };
}

impl Numbers {
    /// No numbers; it takes no memory.
    pub(crate) fn new(alloc: Global) -> Numbers
        ensures { result ≡ [] }
    {
        Numbers {
            rising: Vec::new(alloc),
            others: Seen::new(alloc),
            bound: 0,
        }
    }

    /// Adds the number, and says whether it was there before.
    pub(crate) fn insert(&mut self, number: u64) -> Result<bool, OutOfMemory>
        ensures before { IfOk result (λ before. before ≡ is_seen nat_cmp self.old number) }
        ensures adds { OnOk result (Adds nat_cmp self.old number self.new) }
    {
        if u128::from(number) >= self.bound {
            self.rising.push(number)?;
            self.bound = u128::from(number) + 1;
            return Ok(false);
        }
        if is_among(self.rising.as_slice(), number) {
            return Ok(true);
        }
        self.others.insert(number)
    }
}

/// Whether the number is one of those that rise.
fn is_among(rising: &[u64], number: u64) -> bool
    requires { Rise rising.now }
    ensures { result ≡ is_seen nat_cmp rising.now number }
{
    rising.binary_search(&number).is_ok()
}
