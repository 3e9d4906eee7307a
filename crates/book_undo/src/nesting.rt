ghost use Rattle.std.specs.Prelude.{◌≡◌, nat_lt};
ghost use Rattle.book_undo.specs.Edit.{depth, deepest};

use crate::Edit;

impl Edit {
    /// Whether more than `most` of its lists stand in one another.
    #[cycle(nesting)]
    #[tactic(auto, using(crate::proofs::PartLaws::depth_of_all))]
    pub(crate) fn is_deeper(&self, most: u32) -> bool
        ensures { result ≡ nat_lt most (depth self.now) }
    {
        let Edit::All(parts) = self else {
            return false;
        };
        match most.checked_sub(1) {
            Some(less) => is_any_deeper(parts.as_slice(), less),
            None => true,
        }
    }
}

/// Whether more than `most` lists stand in one another in one of the edits.
#[cycle(nesting)]
fn is_any_deeper(parts: &[Edit], most: u32) -> bool
    ensures { result ≡ nat_lt most (deepest parts.now) }
{
    for part in parts {
        if part.is_deeper(most) {
            return true;
        }
    }
    false
}
