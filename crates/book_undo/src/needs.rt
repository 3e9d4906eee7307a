ghost use Rattle.std.specs.Prelude.{◌≡◌, ◌+◌, ◌^◌, ◌≤◌, OnOk, IfOk, OnErr, flat_map};
ghost use Rattle.book_undo.specs.Edit.{leaves};
ghost use Rattle.book_undo.specs.Room.{puts, need_of, one_of, IsPastAll};

use crate::{Edit, ThingKind};
use book_commodity::OutOfMemory;

/// How many things of each kind an edit puts.
#[derive(Clone, Copy)]
pub(crate) struct Needs {
    pub(crate) commodities: usize,
    pub(crate) accounts: usize,
    pub(crate) transactions: usize,
    pub(crate) prices: usize,
    pub(crate) schedules: usize,
    pub(crate) statements: usize,
    pub(crate) lines: usize,
    pub(crate) bindings: usize,
    pub(crate) reconciliations: usize,
}

impl Needs {
    /// What an edit without leaves puts: nothing.
    pub(crate) fn none() -> Needs
        ensures { (kind : _) → need_of kind result ≡ 0 }
    {
        Needs {
            commodities: 0,
            accounts: 0,
            transactions: 0,
            prices: 0,
            schedules: 0,
            statements: 0,
            lines: 0,
            bindings: 0,
            reconciliations: 0,
        }
    }

    /// Counts what the edit puts; out of memory only where it puts 2^64 or more of a kind.
    #[cycle(needs)]
    #[tactic(auto, using(crate::proofs::PartLaws::leaves_of_all))]
    pub(crate) fn count(&mut self, edit: &Edit) -> Result<(), OutOfMemory>
        ensures counted { OnOk result ((kind : _)
            → need_of kind self.new ≡ need_of kind self.old + puts kind (leaves edit.now)) }
        ensures many { OnErr result (IsPastAll self.old (leaves edit.now)) }
    {
        match edit {
            Edit::Put(_, thing) => self.add(thing.kind()),
            Edit::All(parts) => self.count_all(parts.as_slice()),
            Edit::Currency(_) | Edit::Gone(_, _) => Ok(()),
        }
    }

    /// Counts what the edits put.
    #[cycle(needs)]
    fn count_all(&mut self, parts: &[Edit]) -> Result<(), OutOfMemory>
        ensures counted { OnOk result ((kind : _)
            → need_of kind self.new ≡ need_of kind self.old + puts kind (flat_map leaves parts.now)) }
        ensures many { OnErr result (IsPastAll self.old (flat_map leaves parts.now)) }
    {
        for part in parts {
            self.count(part)?;
        }
        Ok(())
    }

    /// Counts one more thing of the kind.
    fn add(&mut self, kind: ThingKind) -> Result<(), OutOfMemory>
        ensures counted { OnOk result ((other : _)
            → need_of other self.new ≡ need_of other self.old + one_of other kind) }
        ensures many { OnErr result (2 ^ 64 ≤ need_of kind self.old + 1) }
    {
        match kind {
            ThingKind::Commodity => self.commodities = after(self.commodities)?,
            ThingKind::Account => self.accounts = after(self.accounts)?,
            ThingKind::Txn => self.transactions = after(self.transactions)?,
            ThingKind::Price => self.prices = after(self.prices)?,
            ThingKind::Schedule => self.schedules = after(self.schedules)?,
            ThingKind::Held => self.statements = after(self.statements)?,
            ThingKind::Line => self.lines = after(self.lines)?,
            ThingKind::Binding => self.bindings = after(self.bindings)?,
            ThingKind::Recon => self.reconciliations = after(self.reconciliations)?,
        }
        Ok(())
    }
}

/// The next number.
fn after(number: usize) -> Result<usize, OutOfMemory>
    ensures next { IfOk result (λ next. next ≡ number + 1) }
    ensures last { OnErr result (2 ^ 64 ≤ number + 1) }
{
    number.checked_add(1).ok_or(OutOfMemory)
}
