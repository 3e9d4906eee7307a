ghost use Rattle.std.specs.Prelude.{◌≡◌, IfOk};
ghost use Rattle.book_sound.specs.StatementRules.{statement_rules};
ghost use Rattle.book_sound.specs.Tests.{is_live};
ghost use Rattle.book_check.specs.FirstUnsound.{first_of_table};
ghost use Rattle.book_check.specs.Keys.{statement_keys};

use crate::seen::Seen;
use crate::walk::{Checked, first_broken};
use book_accounts::Tree;
use book_commodity::{OutOfMemory, Table};
use book_statement::Held;
use std::alloc::Global;

/// How many statements a book has at most.
const MOST: usize = 100_000;

/// A statement's account, what its file calls the account, its number, its balances, its day, and whether they tie.
type StatementKey<'a> = (
    u64,
    &'a str,
    &'a str,
    Option<i64>,
    Option<i64>,
    i32,
    Option<bool>,
);

/// A walk over statements, and the keys of those that were asked.
#[derive(Drop)]
struct StatementWalk<'a> {
    accounts: &'a Tree,
    statements: &'a Table<Held>,
    keys: Seen<StatementKey<'a>>,
}

impl<'a> Checked for StatementWalk<'a> {
    ghost use Rattle.std.specs.Prelude.{take};
    ghost use Rattle.book_check.specs.Keys.{statement_keys};
    ghost use Rattle.book_check.specs.Walk.{HasKeys};

    type Thing = Held;

    ghost entries = { λ w. w.statements.now.entries };

    ghost rules = { λ w. statement_rules w.accounts.now.entries w.statements.now.entries };

    ghost knows = { λ w place. HasKeys statement_keys w.keys (take place w.statements.now.entries) };

    fn count(&self) -> usize {
        self.statements.len()
    }

    fn number_at(&self, place: usize) -> u64 {
        self.statements.number_at(place)
    }

    fn keeps(&mut self, place: usize) -> Result<bool, OutOfMemory> {
        let statement = self.statements.value_at(place);
        if !is_there(self.accounts, statement.account) {
            return Ok(false);
        }
        let is_taken = self.keys.insert(key_of(statement))?;
        Ok(!is_taken)
    }
}

/// The first number at which a statement breaks a rule of its kind, or is one too many.
pub(crate) fn first_statement(
    alloc: Global,
    accounts: &Tree,
    statements: &Table<Held>,
) -> Result<Option<u64>, OutOfMemory>
    ensures { IfOk result (λ found. found ≡ first_of_table
        (statement_rules accounts.now.entries statements.now.entries) 100000 statements.now.entries) }
{
    let keys = Seen::new(alloc);
    let walk = StatementWalk {
        accounts,
        statements,
        keys,
    };
    first_broken(walk, MOST)
}

/// All fields of the statement.
fn key_of(statement: &Held) -> StatementKey<'_>
    ensures { statement_keys.shown result ≡ statement.now }
{
    (
        statement.account,
        statement.account_text.as_str(),
        statement.number.as_str(),
        statement.opening,
        statement.closing,
        statement.day.number(),
        statement.ties,
    )
}

/// Whether the account is there.
fn is_there(accounts: &Tree, account: u64) -> bool
    ensures { result ≡ is_live accounts.now.entries account }
{
    accounts.find(account).is_some()
}
