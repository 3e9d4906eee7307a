ghost use Rattle.std.specs.Prelude.{◌≡◌, not, ◌++◌, ◌∷◌, [], ℕ, List, IfOk, OnOk};
ghost use Rattle.std.specs.Bool.{OnFalse};
ghost use Rattle.book_statement.specs.Keys.{key};
ghost use Rattle.book_statement.specs.declared.line.Line.{Line as KeptLine};
ghost use Rattle.book_sound.specs.LineRules.{key_of_line};
ghost use Rattle.book_import.specs.Import.{has_key};
ghost use Rattle.book_import.specs.KnownKeys.{HasKeys};

use book_commodity::{OutOfMemory, Table};
use book_statement::{Line, StatementLine};
use std::alloc::Global;
use std::collections::BTreeSet;
use std::marker::Model;

/// A key of a line: its account; its day, amount, type, references and text; its ordinal.
type KeyParts<'a> = (u64, (i32, i64, &'a str, &'a str, &'a str, &'a str), u64);

/// The keys of lines that are known while a file is imported: those of the book's lines, and of the lines that were
/// added. Whether one is there is found in a few comparisons.
#[derive(Drop)]
pub(crate) struct KnownKeys<'a> {
    keys: BTreeSet<KeyParts<'a>>,
}

impl<'a> Model for KnownKeys<'a> {
    ghost use Rattle.std.specs.Prelude.{List};
    ghost use Rattle.book_import.specs.KnownKeys.{Parts};

    ghost Value = { List Parts };

    ghost view = { λ k. k.keys.keys };
}

impl<'a> KnownKeys<'a> {
    /// The keys of the book's lines.
    pub(crate) fn of(alloc: Global, lines: &'a Table<Line>) -> Result<KnownKeys<'a>, OutOfMemory>
        ensures { IfOk result (λ known. HasKeys known lines.now.entries) }
    {
        let mut known = KnownKeys {
            keys: BTreeSet::new(alloc),
        };
        known.add_all(lines.as_slice())?;
        Ok(known)
    }

    /// Adds the keys of these lines.
    fn add_all(&mut self, lines: &'a [(u64, Line)]) -> Result<(), OutOfMemory>
        ensures { OnOk result (HasKeys self.old [] → HasKeys self.new lines.now) }
    {
        for (_, line) in lines {
            self.insert(line.account, &line.body, line.ordinal)?;
        }
        Ok(())
    }

    /// Adds the key of a line of an account that says this and has this ordinal. Says whether no line had it before.
    pub(crate) fn insert(
        &mut self,
        account: u64,
        body: &'a StatementLine,
        ordinal: u64,
    ) -> Result<bool, OutOfMemory>
        ensures new { IfOk result (λ is_new. (lines : List (ℕ × KeptLine)) → HasKeys self.old lines
            → is_new ≡ not (has_key (key account body.now ordinal) lines)) }
        ensures grows { OnOk result ((lines : List (ℕ × KeptLine)) (number : ℕ) (line : KeptLine)
            → key_of_line line ≡ key account body.now ordinal → HasKeys self.old lines
            → HasKeys self.new (lines ++ (number, line) ∷ [])) }
        ensures unchanged { IfOk result (λ is_new. OnFalse is_new (self.new ≡ self.old)) }
    {
        let is_new = self.keys.insert(parts_of(account, body, ordinal))?;
        Ok(is_new)
    }
}

/// The parts of a key.
fn parts_of(account: u64, body: &StatementLine, ordinal: u64) -> KeyParts<'_>
    ensures account { result.0 ≡ account }
    ensures day { result.1.0 ≡ body.now.day }
    ensures amount { result.1.1 ≡ body.now.amount }
    ensures kind { result.1.2.now ≡ body.now.kind }
    ensures own { result.1.3.now ≡ body.now.ref_own }
    ensures bank { result.1.4.now ≡ body.now.ref_bank }
    ensures text { result.1.5.now ≡ body.now.text }
    ensures ordinal { result.2 ≡ ordinal }
{
    (
        account,
        (
            body.day.number(),
            body.amount,
            body.kind.as_str(),
            body.ref_own.as_str(),
            body.ref_bank.as_str(),
            body.text.as_str(),
        ),
        ordinal,
    )
}
