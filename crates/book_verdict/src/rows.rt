ghost use Rattle.std.specs.Prelude.{◌≡◌, IfOk};
ghost use Rattle.book_verdict.specs.Rows.{kind_word, unread_line, unread_row_text, unsound_line, unsound_row_text, why_unread};

use book_commodity::{OutOfMemory, Text};
use std::alloc::Global;

/// What is said where the row of a kind and an id is missing, can't be read, or is one too many.
#[tactic(auto, unfolding(crate::specs::Rows::unread_row_text))]
pub fn unread_row_text(alloc: Global, kind: u8, id: u64) -> Result<Text, OutOfMemory>
    ensures { IfOk result (λ text. text ≡ unread_row_text kind id) }
{
    let line = unread_line(alloc, kind, id)?;
    Ok(Text::of(format!(in alloc;
        "{}Rows were changed by other means than `book`. Use your last copy. To see the row:\n  \
        sqlite3 BOOK 'SELECT hex(body) FROM bk_rows WHERE kind = {kind} AND id = {id}'\n",
        line.as_str()
    )?))
}

/// The line that says what is wrong with it.
#[tactic(auto, unfolding(crate::specs::Rows::unread_line))]
fn unread_line(alloc: Global, kind: u8, id: u64) -> Result<Text, OutOfMemory>
    ensures { IfOk result (λ text. text ≡ unread_line kind id) }
{
    let thing = kind_word(kind);
    let why = why_unread(kind);
    Ok(Text::of(format!(in alloc; "The row of kind {kind} and id {id} ({thing}) {why}\n")?))
}

/// What is said where the row of a kind and an id is the first that breaks a rule, with the words on this rule, which
/// end by a line feed.
#[tactic(auto, unfolding(crate::specs::Rows::unsound_row_text))]
pub fn unsound_row_text(alloc: Global, kind: u8, id: u64, rule: &str) -> Result<Text, OutOfMemory>
    ensures { IfOk result (λ text. text ≡ unsound_row_text kind id rule.now) }
{
    let line = unsound_line(alloc, kind, id, rule)?;
    Ok(Text::of(format!(in alloc;
        "{}Rows were changed by other means than `book`. Use your last copy. `docs/FORMATS.md` lists these rules.\n\
        To see the row:\n  \
        sqlite3 BOOK 'SELECT hex(body) FROM bk_rows WHERE kind = {kind} AND id = {id}'\n",
        line.as_str()
    )?))
}

/// The line that says which rule it breaks.
#[tactic(auto, unfolding(crate::specs::Rows::unsound_line))]
fn unsound_line(alloc: Global, kind: u8, id: u64, rule: &str) -> Result<Text, OutOfMemory>
    ensures { IfOk result (λ text. text ≡ unsound_line kind id rule.now) }
{
    let thing = kind_word(kind);
    Ok(Text::of(format!(in alloc;
        "The row of kind {kind} and id {id} ({thing}) is the first that breaks a rule of its kind: {rule}"
    )?))
}

/// What is wrong with a row of a kind that can't be opened.
#[tactic(auto, unfolding(crate::specs::Rows::why_unread))]
fn why_unread(kind: u8) -> &'static str
    ensures { result.now ≡ why_unread kind }
{
    match kind {
        1 => "is missing, or can't be read.",
        11 | 12 => {
            "is missing, can't be read, or is one too many: the head counts the steps, back and forth."
        }
        2..=10 => "can't be read.",
        _ => "is one too many: a book has no rows of this kind.",
    }
}

/// What the rows of a kind are.
#[tactic(auto, unfolding(crate::specs::Rows::kind_word))]
fn kind_word(kind: u8) -> &'static str
    ensures { result.now ≡ kind_word kind }
{
    match kind {
        1 => "the head",
        2 => "a commodity",
        3 => "an account",
        4 => "a transaction",
        5 => "a price",
        6 => "a schedule",
        7 => "a statement",
        8 => "a line of a statement",
        9 => "a binding",
        10 => "a reconciliation",
        11 => "a step back",
        12 => "a step forth",
        _ => "no kind of a book",
    }
}
