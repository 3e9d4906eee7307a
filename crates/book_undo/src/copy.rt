ghost use Rattle.std.specs.Prelude.{◌≡◌, IfOk};

use crate::Edit;
use book_commodity::{Many, OutOfMemory};
use std::alloc::Global;

impl Edit {
    /// An equal edit with memory of its own.
    #[cycle(copy)]
    pub fn copy(&self, alloc: Global) -> Result<Edit, OutOfMemory>
        ensures { IfOk result (λ copy. copy ≡ self.now) }
    {
        match self {
            Edit::Currency(currency) => Ok(Edit::Currency(*currency)),
            Edit::Put(number, thing) => Ok(Edit::Put(*number, thing.copy(alloc)?)),
            Edit::Gone(kind, number) => Ok(Edit::Gone(*kind, *number)),
            Edit::All(parts) => Ok(Edit::All(copy_all(alloc, parts.as_slice())?)),
        }
    }
}

/// Equal edits with memory of their own.
#[cycle(copy)]
fn copy_all(alloc: Global, parts: &[Edit]) -> Result<Many<Edit>, OutOfMemory>
    ensures { IfOk result (λ copies. copies ≡ parts.now) }
{
    let mut copies = Many::new(alloc);
    for part in parts {
        copies.push(part.copy(alloc)?)?;
    }
    Ok(copies)
}
