ghost use Rattle.std.specs.Prelude.{◌≡◌, Ok, flat_map};
ghost use Rattle.book_undo.specs.Edit.{key_at, leaves};
ghost use Rattle.book_undo.specs.EditRules.{stepped, walked};

use crate::Edit;

/// How far the leaves of an edit were gone over: the key of the last one, kind and number, and how many there were, at
/// most 2^64 - 1.
#[derive(Clone, Copy)]
pub(crate) struct Walk {
    pub(crate) kind: u64,
    pub(crate) number: u64,
    pub(crate) place: u64,
}

impl Walk {
    /// Goes on over the leaves of the edit; the place of the first that is not above the one before, where one is not.
    #[cycle(order)]
    #[tactic(auto, using(crate::proofs::PartLaws::leaves_of_all))]
    pub(crate) fn along(self, edit: &Edit) -> Result<Walk, u64>
        ensures { result ≡ walked (Ok self) (leaves edit.now) }
    {
        match edit {
            Edit::Currency(_) => self.over(1, 0),
            Edit::Put(number, thing) => self.over(thing.kind().row_kind(), *number),
            Edit::Gone(kind, number) => self.over(kind.row_kind(), *number),
            Edit::All(parts) => self.along_all(parts.as_slice()),
        }
    }

    /// Goes on over the leaves of the edits.
    #[cycle(order)]
    fn along_all(self, parts: &[Edit]) -> Result<Walk, u64>
        ensures { result ≡ walked (Ok self) (flat_map leaves parts.now) }
    {
        let mut walk = self;
        for part in parts {
            match walk.along(part) {
                Ok(next) => walk = next,
                Err(place) => return Err(place),
            }
        }
        Ok(walk)
    }

    /// Goes on over a leaf with this key.
    fn over(self, kind: u64, number: u64) -> Result<Walk, u64>
        ensures { result ≡ stepped self (key_at kind number) }
    {
        if kind > self.kind || (kind == self.kind && number > self.number) {
            Ok(Walk {
                kind,
                number,
                place: self.place.saturating_add(1),
            })
        } else {
            Err(self.place)
        }
    }
}
