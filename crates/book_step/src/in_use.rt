ghost use Rattle.std.specs.Prelude.{◌≡◌, ◌<◌, ℕ, Bool, Some, [], ◌∷◌, length, option_map, slice_get};
ghost use Rattle.std.specs.List.{list_any};
ghost use Rattle.book_commodity.specs.Rules.{ReportsFirst};
ghost use Rattle.book_sound.specs.Naming.{binding_names, is_on_some, line_names, reconciliation_names};
ghost use Rattle.book_sound.specs.Naming.{schedule_names, statement_names};
ghost use Rattle.book_step.specs.InUse.{in_use_by, in_use_rules};

use crate::Rule;
use crate::present::Present;
use book_commodity::{Kind, Table};
use book_splits::{Recon, Split};
use book_statement::{Binding, Held, Line};
use book_undo::Schedule;

/// No schedule, statement, line, binding or reconciliation of the book names the account.
pub(crate) fn check_unused(present: &Present, account: u64) -> Result<(), Rule>
    ensures { ReportsFirst (in_use_rules present.now.book account) result }
{
    let plain = present.plain;
    check_table(&plain.schedules, Kind::Schedule, account)?;
    check_table(&plain.statements, Kind::Statement, account)?;
    check_table(&plain.lines, Kind::Line, account)?;
    check_table(&plain.bindings, Kind::Binding, account)?;
    check_table(&plain.reconciliations, Kind::Reconciliation, account)
}

/// A thing that may name an account.
trait NamesAccount {
    /// Whether a thing names the account of a number.
    ghost names: { ℕ → Self → Bool };

    /// Whether it names the account of this number.
    fn has_named(&self, account: u64) -> bool
        ensures { result ≡ names account self.now };
}

/// No thing of the table, which has things of this kind, names the account.
fn check_table<T: NamesAccount>(table: &Table<T>, kind: Kind, account: u64) -> Result<(), Rule>
    ensures { ReportsFirst (in_use_by kind (T.names account) table.now.entries ∷ []) result }
{
    for place in 0..table.len() {
        if table.value_at(place).has_named(account) {
            return Err(Rule::InUse {
                kind,
                id: table.number_at(place),
            });
        }
    }
    Ok(())
}

/// A schedule names the accounts of its template.
impl NamesAccount for Schedule {
    ghost names = { schedule_names };

    fn has_named(&self, account: u64) -> bool {
        is_on_some(self.template.splits.as_slice(), account)
    }
}

/// Whether one of the splits is on the account.
fn is_on_some(splits: &[Split], account: u64) -> bool
    ensures { result ≡ is_on_some account splits.now }
{
    splits.iter().any(|split| split.account == account)
}

/// A statement names its account.
impl NamesAccount for Held {
    ghost names = { statement_names };

    fn has_named(&self, account: u64) -> bool {
        self.account == account
    }
}

/// A statement's line names its account.
impl NamesAccount for Line {
    ghost names = { line_names };

    fn has_named(&self, account: u64) -> bool {
        self.account == account
    }
}

/// A binding names its account.
impl NamesAccount for Binding {
    ghost names = { binding_names };

    fn has_named(&self, account: u64) -> bool {
        self.account == account
    }
}

/// A reconciliation names its account.
impl NamesAccount for Recon {
    ghost names = { reconciliation_names };

    fn has_named(&self, account: u64) -> bool {
        self.account == account
    }
}
