ghost use Rattle.std.specs.Prelude.{◌≡◌, []};
ghost use Rattle.book_undo.specs.Edit.{is_nothing};

use crate::{Thing, ThingKind};
use book_commodity::Many;
use std::alloc::Global;

/// What becomes different in a book.
#[derive(Drop)]
pub enum Edit {
    /// The book's currency becomes the commodity of this number.
    Currency(u64),
    /// The thing stands under the number, instead of one of its kind that stood there.
    Put(u64, Thing),
    /// The thing of this kind under the number is deleted.
    Gone(ThingKind, u64),
    /// All of these, one after another.
    All(Many<Edit>),
}

impl Edit {
    /// The edit that changes nothing: the list without parts. It takes no memory.
    pub fn nothing(alloc: Global) -> Edit
        ensures { result ≡ Edit.All [] }
    {
        Edit::All(Many::new(alloc))
    }

    /// Whether it is the list without parts, which changes nothing.
    pub fn is_nothing(&self) -> bool
        ensures { result ≡ is_nothing self.now }
    {
        match self {
            Edit::All(parts) => parts.is_empty(),
            Edit::Currency(_) | Edit::Put(_, _) | Edit::Gone(_, _) => false,
        }
    }
}
