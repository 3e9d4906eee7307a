ghost use Rattle.std.specs.Prelude.{◌≡◌, true, false, Some, IfOk, MatchOption};
ghost use Rattle.qif_read.specs.Entries.{text_or_empty};
ghost use Rattle.qif_read.specs.Kept.{account_said, line_said, opens_with, total_said};
ghost use Rattle.qif_read.specs.Registers.{inside, is_in_brackets};

use crate::said::Said;
use book_commodity::{Day, OutOfMemory, Text};
use book_statement::{StatementLine, add_piece, text_before, text_behind};
use std::alloc::Global;

/// The text that a line gives, empty where no such line stands.
fn text_or_empty(text: &Option<Text>) -> &str
    ensures { result.now ≡ text_or_empty text.now }
{
    match text {
        Some(text) => text.as_str(),
        None => "",
    }
}

/// The text that a line gave, empty where no such line stood.
pub fn into_text(alloc: Global, text: Option<Text>) -> Text
    ensures { result ≡ text_or_empty text }
{
    text.unwrap_or(Text::new(alloc))
}

/// The account that an entry names in brackets, where it gives the opening balance of an account with this name, or of
/// one without a name.
#[tactic(auto, unfolding(crate::specs::Registers::is_opening_text))]
pub fn opening_account<'a>(name: &str, said: &'a Said) -> Option<&'a str>
    ensures { MatchOption result (opens_with name.now said.now ≡ false)
        (λ account. (opens_with name.now said.now ≡ true) × (account.now ≡ account_said said.now)) }
{
    if text_or_empty(&said.payee) != "Opening Balance" {
        return None;
    }
    let account = in_brackets(text_or_empty(&said.category))?;
    if !name.is_empty() && name != account {
        return None;
    }
    Some(account)
}

/// What stands between the brackets of a text in brackets.
#[tactic(auto, unfolding(crate::specs::Registers::is_in_brackets, crate::specs::Registers::inside))]
fn in_brackets(text: &str) -> Option<&str>
    ensures { MatchOption result (is_in_brackets text.now ≡ false)
        (λ account. (is_in_brackets text.now ≡ true) × (account.now ≡ inside text.now)) }
{
    let bytes = text.as_bytes();
    let len = bytes.len();
    if len < 2 || bytes[0] != b'[' || bytes[len - 1] != b']' {
        return None;
    }
    Some(text_before(text_behind(text, 0), len - 2))
}

/// The line of a statement that an entry gives, of which the day and the amount are these.
pub fn statement_line(
    alloc: Global,
    said: Said,
    day: Day,
    amount: i64,
) -> Result<StatementLine, OutOfMemory>
    requires day { said.day ≡ Some day }
    requires amount { total_said said ≡ Some amount }
    ensures { IfOk result (λ line. line ≡ line_said said) }
{
    let mut text = into_text(alloc, said.payee);
    add_piece(alloc, &mut text, text_or_empty(&said.memo))?;
    let parts = said.splits.into_parts(alloc)?;
    Ok(StatementLine {
        day,
        value_day: day,
        amount,
        kind: Text::new(alloc),
        ref_own: into_text(alloc, said.number),
        ref_bank: Text::new(alloc),
        text,
        category: into_text(alloc, said.category),
        parts,
    })
}
