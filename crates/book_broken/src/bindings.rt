ghost use Rattle.std.specs.Prelude.{◌≡◌};
ghost use Rattle.book_commodity.specs.Rules.{stands_before};
ghost use Rattle.book_commodity.specs.Table.{value_of};
ghost use Rattle.book_sound.specs.BindingRules.{binding_rules, is_same_binding, takes_splits};
ghost use Rattle.book_broken.specs.Broken.{broken_in};
ghost use Rattle.book_broken.specs.Names.{binding_names};

use crate::BrokenRule;
use book_accounts::Tree;
use book_commodity::Table;
use book_statement::Binding;

/// The rule that the binding under the number breaks, if a binding is there.
pub(crate) fn in_bindings(
    accounts: &Tree,
    bindings: &Table<Binding>,
    number: u64,
) -> Option<BrokenRule>
    ensures { result ≡ broken_in (binding_rules accounts.now.entries bindings.now.entries) (λ _. binding_names) number
        bindings.now.entries }
{
    let Some(binding) = bindings.find(number) else {
        return None;
    };
    if has_same_before(bindings.as_slice(), number, binding) {
        return Some(BrokenRule::SameText);
    }
    if !takes_splits(accounts, binding.account) {
        return Some(BrokenRule::AccountTakesNone);
    }
    Some(BrokenRule::TooMany)
}

/// Whether a binding with a smaller number has the same text.
fn has_same_before(bindings: &[(u64, Binding)], number: u64, binding: &Binding) -> bool
    ensures { result ≡ stands_before (is_same_binding binding.now) number bindings.now }
{
    let mut entries = bindings.iter();
    entries.any(|(other, thing)| *other < number && is_same_binding(binding, thing))
}

/// Whether another binding has the same text.
fn is_same_binding(binding: &Binding, other: &Binding) -> bool
    ensures { result ≡ is_same_binding binding.now other.now }
{
    other.text.as_str() == binding.text.as_str()
}

/// Whether the account is there, and takes splits.
fn takes_splits(accounts: &Tree, account: u64) -> bool
    ensures { result ≡ takes_splits (value_of account accounts.now.entries) }
{
    match accounts.find(account) {
        Some(account) => !account.placeholder,
        None => false,
    }
}
