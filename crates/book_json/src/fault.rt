use book_commodity::Text;
use std::alloc::AllocError;

/// Why members were not read.
#[derive(Drop)]
pub enum Fault {
    /// The member of this name fails: it is needed and absent, of another form, or not asked for.
    Member(Text),
    /// Out of memory.
    OutOfMemory,
}

impl From<book_commodity::OutOfMemory> for Fault {
    ghost use Rattle.book_json.specs.declared.fault.Fault.TheVariants.{OutOfMemory};
    ghost use Rattle.std.specs.Prelude.{◌≡◌};

    ghost from_gives = { λ _ fault. fault ≡ OutOfMemory };

    fn from(_error: book_commodity::OutOfMemory) -> Fault {
        Fault::OutOfMemory
    }
}

impl From<AllocError> for Fault {
    ghost use Rattle.book_json.specs.declared.fault.Fault.TheVariants.{OutOfMemory};
    ghost use Rattle.std.specs.Prelude.{◌≡◌};

    ghost from_gives = { λ _ fault. fault ≡ OutOfMemory };

    fn from(_error: AllocError) -> Fault {
        Fault::OutOfMemory
    }
}
