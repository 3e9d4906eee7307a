ghost use Rattle.std.specs.Prelude.{◌≡◌, ◌+◌, ℕ};

use std::marker::{Brand, Model, PhantomData};
use std::mem;

/// How many steps a call took, which contracts alone see: it takes no memory and no time. `L` is the ledger that it
/// belongs to. A call that is bounded in steps takes it for any `L`, so that it can't begin a count of its own.
#[derive(Drop)]
pub struct Steps<L> {
    count: Count,
    ledger: PhantomData<L>,
}

impl<L> Model for Steps<L> {
    ghost use Rattle.std.specs.Prelude.{ℕ};

    ghost Value = { ℕ };

    ghost view = { λ s. s.count.count };
}

impl Steps<Brand> {
    /// No step yet.
    pub fn new() -> Steps<Brand>
        ensures { result ≡ 0 }
    {
        Steps {
            count: Count::none(),
            ledger: PhantomData,
        }
    }
}

impl<L> Steps<L> {
    /// Counts one step.
    pub fn tick(&mut self)
        ensures { self.new ≡ self.old + 1 }
    {
        let count = mem::replace(&mut self.count, Count::none());
        self.count = count.next();
    }
}

/// A number for proofs alone. No machine value holds it, so what makes a `Count` says which number it is.
struct Count {
    ghost count: { ℕ },
}

impl Model for Count {
    ghost use base.Fml.{ftrue};

    ghost also_owns = { λ _. ftrue };
}

impl Drop for Count {
    fn drop(self) {
        let Count {} = self;
    }
}

impl Count {
    /// The count 0.
    fn none() -> Count
        ensures { result.count ≡ 0 }
    {
        Count {}
    }

    /// The next count.
    fn next(self) -> Count
        ensures { result.count ≡ self.count + 1 }
    {
        let Count {} = self;
        Count {}
    }
}
