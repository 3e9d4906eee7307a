ghost use Rattle.std.specs.Prelude.{◌≡◌, ◌∷◌, [], None, Some, IfSome};
ghost use Rattle.book_keeper.specs.Rows.{first_row};

use book_keeper::{Row, RowKey};
use std::alloc::Global;
use std::collections::VecDeque;

/// Rows that were read before they were asked for: those that come next behind a key, in their order.
#[derive(Drop)]
pub(crate) struct ReadAhead {
    pub(crate) after: Option<RowKey>,
    pub(crate) rows: VecDeque<Row>,
}

impl ReadAhead {
    /// No rows; it takes no memory.
    pub(crate) fn none(alloc: Global) -> ReadAhead
        ensures { result.rows.items ≡ [] }
    {
        ReadAhead {
            after: None,
            rows: VecDeque::new(alloc),
        }
    }

    /// The rows that were read behind a key, or from the first on.
    pub(crate) fn behind(after: Option<RowKey>, rows: Vec<Row>) -> ReadAhead
        ensures after { result.after ≡ after }
        ensures rows { result.rows.items ≡ rows.items }
    {
        ReadAhead {
            after,
            rows: VecDeque::from(rows),
        }
    }

    /// Forgets the rows; after a change others may come next.
    pub(crate) fn forget(&mut self)
        ensures { self.new.rows.items ≡ [] }
    {
        self.rows.clear();
    }

    /// Takes the row that was read ahead behind the key, if there is one.
    pub(crate) fn take_behind(&mut self, after: Option<RowKey>) -> Option<Row>
        ensures key { IfSome result (λ _. self.old.after ≡ after) }
        ensures row { IfSome result (λ row. self.old.rows.items ≡ row ∷ self.new.rows.items) }
        ensures next { IfSome result (λ row. self.new.after ≡ Some row.key) }
        ensures first { self.old.after ≡ after → result ≡ first_row self.old.rows.items }
        ensures kept { result ≡ None → self.new.after ≡ self.old.after }
        ensures rows { result ≡ None → self.new.rows.items ≡ self.old.rows.items }
    {
        if self.after != after {
            return None;
        }
        let row = self.rows.pop_front()?;
        self.after = Some(row.key);
        Some(row)
    }
}
