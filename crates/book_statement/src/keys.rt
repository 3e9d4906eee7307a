ghost use Rattle.std.specs.Prelude.{◌≡◌, IfOk};
ghost use Rattle.book_statement.specs.Keys.{key, keys_of};

use crate::{LineKey, Statement, StatementLine};
use book_commodity::{Many, OutOfMemory};
use std::alloc::Global;
use std::collections::BTreeMap;

/// What two equal lines have in common: day, amount, type, references and text.
type Twin<'a> = (i32, i64, &'a str, &'a str, &'a str, &'a str);

/// The keys of a statement's lines, in their order, under the number of the account.
pub fn keys_of(
    alloc: Global,
    account: u64,
    statement: &Statement,
) -> Result<Many<LineKey>, OutOfMemory>
    ensures { IfOk result (λ keys. keys ≡ keys_of account statement.now.lines) }
{
    let lines = statement.lines.as_slice();
    let mut seen = BTreeMap::new(alloc);
    let mut keys = Many::new(alloc);
    for line in lines {
        let ordinal = seen.get(&twin(line)).copied().unwrap_or(0);
        seen.insert(twin(line), ordinal + 1)?;
        keys.push(key(account, line, ordinal)?)?;
    }
    Ok(keys)
}

fn twin(line: &StatementLine) -> Twin<'_>
    ensures day { result.0 ≡ line.now.day }
    ensures amount { result.1 ≡ line.now.amount }
    ensures kind { result.2.now ≡ line.now.kind }
    ensures own { result.3.now ≡ line.now.ref_own }
    ensures bank { result.4.now ≡ line.now.ref_bank }
    ensures text { result.5.now ≡ line.now.text }
{
    (
        line.day.number(),
        line.amount,
        line.kind.as_str(),
        line.ref_own.as_str(),
        line.ref_bank.as_str(),
        line.text.as_str(),
    )
}

fn key(account: u64, line: &StatementLine, ordinal: u64) -> Result<LineKey, OutOfMemory>
    ensures { IfOk result (λ key_. key_ ≡ key account line.now ordinal) }
{
    Ok(LineKey {
        account,
        day: line.day,
        amount: line.amount,
        kind: line.kind.copy()?,
        ref_own: line.ref_own.copy()?,
        ref_bank: line.ref_bank.copy()?,
        text: line.text.copy()?,
        ordinal,
    })
}
