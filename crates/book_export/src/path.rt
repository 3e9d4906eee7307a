ghost use Rattle.std.specs.Prelude.{◌≡◌, ◌==◌, [], ◌∷◌, ◌++◌, if◌then◌else◌, IfOk, OnOk, map};
ghost use Rattle.std.specs.List.{join_with_byte};
ghost use Rattle.book_commodity.specs.Table.{Rises};
ghost use Rattle.book_accounts.specs.Path.{name_at};
ghost use Rattle.book_accounts.specs.Tree.{IsRooted, ancestors, parent_of};
ghost use Rattle.book_export.specs.Names.{journal_name, journal_path};

use crate::names::push_account_name;
use book_accounts::Tree;
use book_commodity::OutOfMemory;
use std::alloc::Global;

/// The path of an account in the journal; empty for the root, and where there is no such account.
pub(crate) fn path_of(alloc: Global, accounts: &Tree, number: u64) -> Result<Vec<u8>, OutOfMemory>
    requires { IsRooted accounts.now.entries }
    ensures { IfOk result (λ path. path.items ≡ journal_path accounts.now.entries number) }
{
    let mut way = way_up(alloc, accounts, number)?;
    way.reverse();
    joined_names(alloc, accounts, &way[1..])
}

/// The account itself and all that it stands under, from the nearest on.
fn way_up(alloc: Global, accounts: &Tree, number: u64) -> Result<Vec<u64>, OutOfMemory>
    requires { IsRooted accounts.now.entries }
    ensures { IfOk result (λ way. way.items ≡ number ∷ ancestors accounts.now.entries number) }
{
    let mut way = Vec::new(alloc);
    way.push(number)?;
    let mut current = number;
    while let Some(parent) = parent_of(accounts, current) {
        way.push(parent)?;
        current = parent;
    }
    Ok(way)
}

/// The parent of an account; `None` where it has none, or isn't there.
fn parent_of(accounts: &Tree, number: u64) -> Option<u64>
    ensures parent { result ≡ parent_of accounts.now.entries number }
    ensures rises { Rises accounts.now.entries }
{
    let _ = accounts.len();
    match accounts.find(number) {
        Some(account) => account.parent,
        None => None,
    }
}

/// The names of accounts in order, separated by `:`.
fn joined_names(alloc: Global, accounts: &Tree, numbers: &[u64]) -> Result<Vec<u8>, OutOfMemory>
    ensures { IfOk result (λ names. names.items
        ≡ join_with_byte 58 (map (λ n. journal_name (name_at accounts.now.entries n)) numbers.now)) }
{
    let mut names = Vec::new(alloc);
    for (place, number) in numbers.iter().enumerate() {
        push_colon_behind(&mut names, place)?;
        push_name_at(&mut names, accounts, *number)?;
    }
    Ok(names)
}

/// Adds a colon behind so many names; nothing where there is none.
fn push_colon_behind(names: &mut Vec<u8>, count: usize) -> Result<(), OutOfMemory>
    ensures { OnOk result (names.new.items ≡ names.old.items ++ (if count == 0 then [] else 58 ∷ [])) }
{
    if count > 0 {
        names.push(b':')?;
    }
    Ok(())
}

/// Adds the name of the account with a number; nothing where there is no such account.
fn push_name_at(names: &mut Vec<u8>, accounts: &Tree, number: u64) -> Result<(), OutOfMemory>
    ensures { OnOk result (names.new.items ≡ names.old.items ++ journal_name (name_at accounts.now.entries number)) }
{
    match accounts.find(number) {
        Some(account) => push_account_name(names, account.name.as_str().as_bytes()),
        None => push_account_name(names, b""),
    }
}
