ghost use Rattle.std.specs.Prelude.{◌≡◌, ◌<◌, ◌&&◌, Some, length, nat_lt, option_map, slice_get};
ghost use Rattle.book_commodity.specs.Rules.{stands_before};
ghost use Rattle.book_accounts.specs.AccountRules.{account_rules, fits_basis, fits_parent, has_parent_unless_root};
ghost use Rattle.book_accounts.specs.AccountRules.{has_same_name, is_placeholder_if_root, is_root};
ghost use Rattle.book_accounts.specs.AccountRules.{is_root_if_of_kind, leads_to_root, root_of};
ghost use Rattle.book_accounts.specs.Tree.{parent_of};
ghost use Rattle.book_broken.specs.Broken.{broken_in, first_failing};
ghost use Rattle.book_broken.specs.Names.{account_names};

use crate::BrokenRule;
use crate::commodities::is_currency;
use book_accounts::{Account, AccountKind, Tree};
use book_commodity::Commodities;

/// The rule that the account under the number breaks, if an account is there.
pub(crate) fn in_accounts(
    commodities: &Commodities,
    accounts: &Tree,
    number: u64,
) -> Option<BrokenRule>
    ensures { result ≡ broken_in (account_rules commodities.now.entries accounts.now.entries) (λ _. account_names)
        number accounts.now.entries }
{
    match accounts.find(number) {
        Some(account) => Some(rule_of(commodities, accounts, number, account)),
        None => None,
    }
}

/// The first rule that an account breaks; where it breaks none, it is one too many.
fn rule_of(commodities: &Commodities, accounts: &Tree, number: u64, account: &Account) -> BrokenRule
    ensures { result ≡ first_failing (account_rules commodities.now.entries accounts.now.entries number account.now)
        account_names }
{
    let root = root_of(accounts);
    if commodities.find(account.commodity).is_none() {
        return BrokenRule::UnknownCommodity;
    }
    if !fits_basis(commodities, account.kind.is_security(), account.basis) {
        return BrokenRule::Basis;
    }
    if !has_parent_unless_root(account) {
        return BrokenRule::Parent;
    }
    if !is_placeholder_if_root(account) {
        return BrokenRule::RootTakesSplits;
    }
    if !is_root_if_of_kind(accounts, root, number, account) {
        return BrokenRule::SecondRoot;
    }
    if !fits_parent(accounts, account.kind, account.parent) {
        return BrokenRule::ParentKind;
    }
    if has_same_before(accounts, number, account) {
        return BrokenRule::SameName;
    }
    if !leads_to_root(accounts, root, number) {
        return BrokenRule::NotUnderRoot;
    }
    BrokenRule::TooMany
}

/// The number of the root.
pub(crate) fn root_of(accounts: &Tree) -> Option<u64>
    ensures { result ≡ root_of accounts.now.entries }
{
    for place in 0..accounts.len() {
        if is_root(accounts.value_at(place).kind) {
            return Some(accounts.number_at(place));
        }
    }
    None
}

/// Whether it is the kind of the root.
fn is_root(kind: AccountKind) -> bool
    ensures { result ≡ is_root kind }
{
    matches!(kind, AccountKind::Root)
}

/// Whether a security has a currency as its basis, and another account none.
fn fits_basis(commodities: &Commodities, is_security: bool, basis: Option<u64>) -> bool
    ensures { result ≡ fits_basis commodities.now.entries is_security basis }
{
    match basis {
        Some(basis) => is_security && is_currency(commodities, basis),
        None => !is_security,
    }
}

/// Whether the account has a parent exactly where it is no root.
fn has_parent_unless_root(account: &Account) -> bool
    ensures { result ≡ has_parent_unless_root account.now }
{
    account.parent.is_none() == is_root(account.kind)
}

/// Whether the account takes no splits where it is a root.
fn is_placeholder_if_root(account: &Account) -> bool
    ensures { result ≡ is_placeholder_if_root account.now }
{
    !is_root(account.kind) || account.placeholder
}

/// Whether the account is the root where it is of its kind.
fn is_root_if_of_kind(accounts: &Tree, root: Option<u64>, number: u64, account: &Account) -> bool
    requires { root ≡ root_of accounts.now.entries }
    ensures { result ≡ is_root_if_of_kind accounts.now.entries number account.now }
{
    !is_root(account.kind) || root == Some(number)
}

/// Whether the parent, if there is to be one, is there and of a fitting kind.
fn fits_parent(accounts: &Tree, kind: AccountKind, parent: Option<u64>) -> bool
    ensures { result ≡ fits_parent accounts.now.entries kind parent }
{
    let Some(parent) = parent else {
        return true;
    };
    match accounts.find(parent) {
        Some(above) => kind.fits_under(above.kind),
        None => false,
    }
}

/// Whether an account with a smaller number has the same parent and name.
fn has_same_before(accounts: &Tree, number: u64, account: &Account) -> bool
    ensures { result ≡ stands_before (has_same_name account.now) number accounts.now.entries }
{
    for place in 0..accounts.len() {
        if is_same_before(accounts, place, number, account) {
            return true;
        }
    }
    false
}

/// Whether the account at a place has a smaller number, and the same parent and name.
fn is_same_before(accounts: &Tree, place: usize, number: u64, account: &Account) -> bool
    requires { place < length accounts.now.entries }
    ensures { option_map (λ entry. nat_lt entry.0 number && has_same_name account.now entry.1)
        (slice_get accounts.now.entries place) ≡ Some result }
{
    accounts.number_at(place) < number && has_same_name(account, accounts.value_at(place))
}

/// Whether another account has the same parent and name.
fn has_same_name(account: &Account, other: &Account) -> bool
    ensures { result ≡ has_same_name account.now other.now }
{
    other.parent == account.parent && other.name.as_str() == account.name.as_str()
}

/// Whether the parents of the account lead up to the root.
fn leads_to_root(accounts: &Tree, root: Option<u64>, number: u64) -> bool
    requires { root ≡ root_of accounts.now.entries }
    ensures { result ≡ leads_to_root accounts.now.entries number }
{
    let mut current = number;
    for _step in 0..accounts.len() {
        if root == Some(current) {
            return true;
        }
        let Some(parent) = parent_of(accounts, current) else {
            return false;
        };
        current = parent;
    }
    root == Some(current)
}

/// The parent of the account with the number; `None` where it has none, or isn't there.
fn parent_of(accounts: &Tree, number: u64) -> Option<u64>
    ensures { result ≡ parent_of accounts.now.entries number }
{
    match accounts.find(number) {
        Some(account) => account.parent,
        None => None,
    }
}
