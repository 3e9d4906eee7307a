ghost use Rattle.std.specs.Prelude.{◌≡◌, flat_map};
ghost use Rattle.book_commodity.specs.Rules.{ReportsFirst};
ghost use Rattle.book_undo.specs.Book.{book_of};
ghost use Rattle.book_undo.specs.Edit.{leaves};
ghost use Rattle.book_undo.specs.EditRules.{edit_rules, first_missing};

use crate::apply::MAX_DEPTH;
use crate::order::Walk;
use crate::{Edit, EditRule, Plain};

impl Plain {
    /// Whether the edit may be applied to this book: the first rule that it breaks, else Ok.
    pub fn check_edit(&self, edit: &Edit) -> Result<(), EditRule>
        ensures { ReportsFirst (edit_rules (book_of self.now) edit.now) result }
    {
        if let Some(rule) = self.missing(edit) {
            return Err(rule);
        }
        let start = Walk {
            kind: 0,
            number: 0,
            place: 0,
        };
        if let Err(place) = start.along(edit) {
            return Err(EditRule::OutOfOrder { place });
        }
        if edit.is_deeper(MAX_DEPTH) {
            return Err(EditRule::TooDeep);
        }
        Ok(())
    }

    /// The first thing that the edit deletes and that is not there.
    #[cycle(missing)]
    #[tactic(auto, using(crate::proofs::PartLaws::leaves_of_all))]
    fn missing(&self, edit: &Edit) -> Option<EditRule>
        ensures { result ≡ first_missing (book_of self.now) (leaves edit.now) }
    {
        match edit {
            Edit::Gone(kind, number) if !self.has(*kind, *number) => Some(EditRule::Missing {
                kind: *kind,
                id: *number,
            }),
            Edit::All(parts) => self.missing_among(parts.as_slice()),
            Edit::Currency(_) | Edit::Put(_, _) | Edit::Gone(_, _) => None,
        }
    }

    /// The first thing that one of the edits deletes and that is not there.
    #[cycle(missing)]
    fn missing_among(&self, parts: &[Edit]) -> Option<EditRule>
        ensures { result ≡ first_missing (book_of self.now) (flat_map leaves parts.now) }
    {
        for part in parts {
            let found = self.missing(part);
            if found.is_some() {
                return found;
            }
        }
        None
    }
}
