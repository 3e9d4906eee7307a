ghost use Rattle.std.specs.Prelude.{◌≡◌, ◌↔◌, Contains, IsTrue};
ghost use Rattle.book_keeper.specs.Calls.{FailsNext};
ghost use Rattle.book_keeper.specs.Faults.{next_count};

use book_commodity::Many;

/// The calls on an object in memory: the numbers, from 1, of those that are to fail, and how many were made.
#[derive(Drop)]
pub struct Calls {
    pub fail: Many<u64>,
    pub made: u64,
}

impl Calls {
    /// No call was made yet.
    pub fn new(fail: Many<u64>) -> Calls
        ensures { result ≡ record { fail = fail; made = 0 } }
    {
        Calls { fail, made: 0 }
    }

    /// Counts a call, and says whether it is to fail.
    pub fn begin(&mut self) -> bool
        ensures fails { IsTrue result ↔ FailsNext self.old.fail self.old.made }
        ensures counted { self.new ≡ record self.old { made = next_count self.old.made } }
    {
        self.made = self.made.saturating_add(1);
        self.fail.as_slice().contains(&self.made)
    }
}
