ghost use Rattle.std.specs.Prelude.{◌≡◌, [], ◌∷◌, Some, map};
ghost use Rattle.book_commodity.specs.Rules.{ReportsFirst};
ghost use Rattle.book_commodity.specs.Table.{value_of};
ghost use Rattle.book_undo.specs.Book.{book_of};
ghost use Rattle.book_step.specs.Importing.{bound_account, bound_to, file_rules, goes_to, has_code, other_currency};
ghost use Rattle.book_step.specs.Importing.{statement_rules};
ghost use Rattle.book_step.specs.Schedules.{Finds};

use crate::present::Present;
use crate::{Refusal, Rule};
use book_commodity::{Commodities, Many, Text};
use book_import::Bound;
use book_statement::{Binding, Statement};
use book_undo::Plain;

/// The statements of a file, each with the account that it goes to: the one that is given, or else the one that its
/// account text stands for. Broken with the first rule that a statement breaks.
pub(crate) fn bind_all<'a>(
    present: &Present,
    given: Option<u64>,
    statements: &'a [Statement],
) -> Result<Many<Bound<'a>>, Refusal>
    ensures { Finds (file_rules present.now.book given statements.now)
        (λ file. file ≡ map (bound_to present.now.book.bindings given) statements.now) result }
{
    let mut file = Many::new(present.alloc);
    for statement in statements {
        let account = account_of(present, given, statement)?;
        file.push(Bound { account, statement })?;
    }
    Ok(file)
}

/// The account that the statement goes to, which is in the statement's currency.
fn account_of(present: &Present, given: Option<u64>, statement: &Statement) -> Result<u64, Refusal>
    ensures { Finds (statement_rules present.now.book given statement.now)
        (λ account. goes_to present.now.book.bindings given statement.now ≡ Some account) result }
{
    let plain = present.plain;
    let Some(account) = goes_to(plain.bindings.as_slice(), given, statement) else {
        let text = statement.account_text.copy()?;
        return Err(Refusal::Broken(Rule::Unbound { text }));
    };
    check_currency(plain, account, &statement.currency)?;
    Ok(account)
}

/// The account that the statement goes to, if there is one.
fn goes_to(bindings: &[(u64, Binding)], given: Option<u64>, statement: &Statement) -> Option<u64>
    ensures { result ≡ goes_to bindings.now given statement.now }
{
    match given {
        Some(account) => Some(account),
        None => bound_account(bindings, &statement.account_text),
    }
}

/// The account that an account text stands for.
fn bound_account(bindings: &[(u64, Binding)], text: &Text) -> Option<u64>
    ensures { result ≡ bound_account bindings.now text.now }
{
    for (_, binding) in bindings {
        if binding.text.as_str() == text.as_str() {
            return Some(binding.account);
        }
    }
    None
}

/// The account of this number, where the book has one, is in the currency of this code.
fn check_currency(plain: &Plain, number: u64, code: &Text) -> Result<(), Rule>
    ensures { ReportsFirst (other_currency (book_of plain.now).commodities code.now
        (value_of number (book_of plain.now).accounts) ∷ []) result }
{
    let Some(account) = plain.accounts.find(number) else {
        return Ok(());
    };
    if !has_code(&plain.commodities, code, account.commodity) {
        return Err(Rule::WrongCurrency {
            commodity: account.commodity,
        });
    }
    Ok(())
}

/// Whether the commodity of this number is one of the book's, and the currency of this code.
fn has_code(commodities: &Commodities, code: &Text, number: u64) -> bool
    ensures { result ≡ has_code code.now (value_of number commodities.now.entries) }
{
    match commodities.find(number) {
        Some(commodity) => { commodity.is_currency() && commodity.name.as_str() == code.as_str() }
        None => false,
    }
}
