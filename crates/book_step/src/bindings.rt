ghost use Rattle.std.specs.Prelude.{◌≡◌, ◌++◌, [], ◌∷◌, None, Some, option_map};
ghost use Rattle.book_commodity.specs.Rules.{ReportsFirst};
ghost use Rattle.book_commodity.specs.Table.{value_of};
ghost use Rattle.book_statement.specs.Keys.{same_text};
ghost use Rattle.book_step.specs.Bindings.{account_rules, bind, bind_at, binding_of, binding_to, new_rules};
ghost use Rattle.book_step.specs.Bindings.{too_many_bindings};
ghost use Rattle.book_step.specs.Outcome.{StepsTo};

use crate::accounts::known;
use crate::present::Present;
use crate::{Answer, Refusal, Rule, Step};
use book_commodity::{Counted, Table};
use book_statement::Binding;
use book_undo::{Edit, Thing};

const MAX_BINDINGS: usize = 10_000;

/// The account text of the binding stands for its account: under the next number where it stands for none yet, else
/// in the place of the binding that is there.
pub(crate) fn bind(present: &Present, binding: Binding) -> Result<Step, Refusal>
    ensures { StepsTo present.now (bind present.now binding) result }
{
    match binding_of(&present.plain.bindings, binding.text.as_str()) {
        None => new_binding(present, binding),
        Some((number, account)) => bind_again(present, number, account, binding),
    }
}

/// The number of the binding of an account text, and the account that the text stands for.
fn binding_of(bindings: &Table<Binding>, text: &str) -> Option<(u64, u64)>
    ensures { result ≡ option_map (λ entry. (entry.0, entry.1.account)) (binding_of text.now bindings.now.entries) }
{
    for place in 0..bindings.len() {
        let binding = bindings.value_at(place);
        if has_text(binding, text) {
            return Some((bindings.number_at(place), binding.account));
        }
    }
    None
}

/// Whether the binding is of this account text.
fn has_text(binding: &Binding, text: &str) -> bool
    ensures { result ≡ same_text binding.now.text text.now }
{
    binding.text.as_str() == text
}

/// The binding stands in the book, under the next number.
fn new_binding(present: &Present, binding: Binding) -> Result<Step, Refusal>
    ensures { StepsTo present.now (bind_at present.now binding None) result }
{
    check_new(present, binding.account)?;
    let edit = Edit::Put(present.next, Thing::Binding(binding));
    Step::changing(present, 1, edit, Answer::Bind)
}

/// The binding stands in the book, in the place of the one under the number, which binds its text to the account.
fn bind_again(
    present: &Present,
    number: u64,
    account: u64,
    binding: Binding,
) -> Result<Step, Refusal>
    requires { value_of number present.now.book.bindings ≡ Some (binding_to binding.text account) }
    ensures { StepsTo present.now
        (bind_at present.now binding (Some (number, binding_to binding.text account))) result }
{
    check_account(present, binding.account)?;
    if account == binding.account {
        return Ok(Step::leaving(present, Answer::Bind));
    }
    let edit = Edit::Put(number, Thing::Binding(binding));
    Step::changing(present, 0, edit, Answer::Bind)
}

/// The account of this number may be bound, and the book has room for one binding more.
fn check_new(present: &Present, account: u64) -> Result<(), Rule>
    ensures { ReportsFirst (new_rules present.now.book account) result }
{
    check_account(present, account)?;
    check_room(&present.plain.bindings)
}

/// The account of this number is one of the book's, and takes splits.
fn check_account(present: &Present, number: u64) -> Result<(), Rule>
    ensures { ReportsFirst (account_rules present.now.book.accounts number) result }
{
    let account = known(present, number)?;
    if account.placeholder {
        return Err(Rule::Placeholder { account: number });
    }
    Ok(())
}

/// There is room for one more binding.
fn check_room(bindings: &Table<Binding>) -> Result<(), Rule>
    ensures { ReportsFirst (too_many_bindings bindings.now.entries ∷ []) result }
{
    if bindings.len() >= MAX_BINDINGS {
        return Err(Rule::Limit {
            which: Counted::Bindings,
            at: MAX_BINDINGS as u64,
        });
    }
    Ok(())
}
