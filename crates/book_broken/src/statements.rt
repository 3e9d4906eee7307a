ghost use Rattle.std.specs.Prelude.{◌≡◌};
ghost use Rattle.book_commodity.specs.Rules.{stands_before};
ghost use Rattle.book_sound.specs.StatementRules.{is_same_statement, statement_rules};
ghost use Rattle.book_broken.specs.Broken.{broken_in};
ghost use Rattle.book_broken.specs.Names.{statement_names};

use crate::BrokenRule;
use book_accounts::Tree;
use book_commodity::Table;
use book_statement::Held;

/// The rule that the statement under the number breaks, if a statement is there.
pub(crate) fn in_statements(
    accounts: &Tree,
    statements: &Table<Held>,
    number: u64,
) -> Option<BrokenRule>
    ensures { result ≡ broken_in (statement_rules accounts.now.entries statements.now.entries) (λ _. statement_names)
        number statements.now.entries }
{
    let Some(statement) = statements.find(number) else {
        return None;
    };
    if accounts.find(statement.account).is_none() {
        return Some(BrokenRule::UnknownAccount);
    }
    if has_same_before(statements.as_slice(), number, statement) {
        return Some(BrokenRule::SameStatement);
    }
    Some(BrokenRule::TooMany)
}

/// Whether a statement with a smaller number is equal in all fields.
fn has_same_before(statements: &[(u64, Held)], number: u64, statement: &Held) -> bool
    ensures { result ≡ stands_before (is_same_statement statement.now) number statements.now }
{
    let mut entries = statements.iter();
    entries.any(|(other, thing)| *other < number && is_same_statement(statement, thing))
}

/// Whether another statement is equal in all fields.
fn is_same_statement(statement: &Held, other: &Held) -> bool
    ensures { result ≡ is_same_statement statement.now other.now }
{
    other.account == statement.account
        && other.account_text.as_str() == statement.account_text.as_str()
        && other.number.as_str() == statement.number.as_str()
        && other.opening == statement.opening
        && other.closing == statement.closing
        && other.day.number() == statement.day.number()
        && other.ties == statement.ties
}
