ghost use Rattle.std.specs.Prelude.{◌≡◌, ◌++◌, IfOk, string_bytes};
ghost use Rattle.book_commodity.specs.Day.{IsDay};
ghost use Rattle.book_sample.specs.Sample.{account_line, account_lines, lines_of_draws, post_line, redo_after};
ghost use Rattle.book_sample.specs.Sample.{sample_text, undo_after};

use crate::draw::{Draw, draw_of, next_state};
use book_commodity::{OutOfMemory, Text};
use std::alloc::{AllocError, Global};
use std::str;

/// How many posts are drawn.
const DRAWS: u64 = 20_000;

/// The line that takes back the last change.
const UNDO: &str = "{\"do\":\"undo\"}\n";

/// The line that makes it again.
const REDO: &str = "{\"do\":\"redo\"}\n";

/// The lines that ask for the counts of the book and for its trial balance.
const CLOSING: &str = "{\"do\":\"status\"}\n{\"do\":\"trial\",\"day\":\"2023-12-31\"}\n";

/// The line that adds the account of this place, as `A0`.
#[tactic(auto, unfolding(crate::specs::Sample::account_line))]
fn account_line(alloc: Global, place: u64) -> Result<String, AllocError>
    ensures { IfOk result (λ line. string_bytes line ≡ account_line place) }
{
    let kind = if place < 4 { "BANK" } else { "EXPENSE" };
    format!(in alloc;
        "{{\"do\":\"account_add\",\"name\":\"A{place}\",\"kind\":\"{kind}\",\"commodity\":1,\"parent\":2}}\n"
    )
}

/// Appends the lines that add the eight accounts.
#[tactic(auto, unfolding(crate::specs::Sample::account_lines))]
fn push_accounts(alloc: Global, text: &mut String) -> Result<(), AllocError>
    ensures { IfOk result (λ _. string_bytes text.new ≡ string_bytes text.old ++ account_lines) }
{
    for place in 0..8 {
        let line = account_line(alloc, place)?;
        text.push_str(line.as_str())?;
    }
    Ok(())
}

/// The line that posts a draw.
#[tactic(auto, unfolding(crate::specs::Sample::post_line))]
fn post_line(alloc: Global, draw: &Draw) -> Result<String, AllocError>
    requires { IsDay draw.now.day }
    ensures { IfOk result (λ line. string_bytes line ≡ post_line draw.now) }
{
    let Draw {
        debited,
        credited,
        value,
        day,
    } = *draw;
    let bytes = day.text();
    let Ok(day) = str::from_utf8(&bytes) else {
        unreachable!()
    };
    format!(in alloc;
        "{{\"do\":\"post\",\"day\":\"{day}\",\"currency\":1,\"splits\":[\
            {{\"account\":{debited},\"value\":{value}}},\
            {{\"account\":{credited},\"value\":-{value}}}]}}\n"
    )
}

/// The line that undoes each tenth post, and nothing behind the others.
fn undo_after(place: u64) -> &'static str
    ensures { result.now ≡ undo_after place }
{
    if place % 10 == 9 { UNDO } else { "" }
}

/// The line that takes back each second undo, and nothing where there was none.
fn redo_after(place: u64) -> &'static str
    ensures { result.now ≡ redo_after place }
{
    if place % 20 == 19 { REDO } else { "" }
}

/// Appends the lines of the draw at a place, counted from 0: its post, after each tenth an undo, and after each second
/// undo a redo.
fn push_draw(alloc: Global, text: &mut String, place: u64, draw: &Draw) -> Result<(), AllocError>
    requires { IsDay draw.now.day }
    ensures { IfOk result (λ _. string_bytes text.new
        ≡ string_bytes text.old ++ (post_line draw.now ++ (undo_after place ++ redo_after place))) }
{
    let post = post_line(alloc, draw)?;
    text.push_str(post.as_str())?;
    text.push_str(undo_after(place))?;
    text.push_str(redo_after(place))?;
    Ok(())
}

/// Appends the lines of so many draws from a number.
fn push_draws(alloc: Global, text: &mut String, number: u64, count: u64) -> Result<(), AllocError>
    ensures { IfOk result (λ _. string_bytes text.new ≡ string_bytes text.old ++ lines_of_draws number count) }
{
    let mut state = number;
    for place in 0..count {
        state = next_state(state);
        push_draw(alloc, text, place, &draw_of(state))?;
    }
    Ok(())
}

/// The lines of the sample of a number: eight accounts, 20,000 posts that are drawn from the number, 2,000 undos and
/// 1,000 redos among them, and last the lines that ask for the counts of the book and for its trial balance.
/// OutOfMemory where there is not enough memory for them.
#[tactic(auto, unfolding(crate::specs::Sample::sample_text, crate::specs::Sample::closing_lines))]
pub fn sample_lines(alloc: Global, number: u64) -> Result<Text, OutOfMemory>
    ensures { IfOk result (λ text. text ≡ sample_text number) }
{
    let mut text = String::new(alloc);
    push_accounts(alloc, &mut text)?;
    push_draws(alloc, &mut text, number, DRAWS)?;
    text.push_str(CLOSING)?;
    Ok(Text::of(text))
}
