ghost use Rattle.std.specs.Prelude.{◌≡◌, [], ◌∷◌, IfOk};
ghost use Rattle.book_commodity.specs.Rules.{ReportsFirst};
ghost use Rattle.book_free.specs.FreeSplits.{free_splits};
ghost use Rattle.book_sound.specs.Soundness.{IsSoundBook};
ghost use Rattle.book_step.specs.AutoMatching.{match_auto, match_rules, matches, wide_window};
ghost use Rattle.book_step.specs.Outcome.{StepsTo};

use crate::accounts::known;
use crate::matchable::open_lines;
use crate::pairing::pairing_edit;
use crate::present::Present;
use crate::{Answer, Refusal, Rule, Step};
use book_commodity::{Counted, Many, OutOfMemory};
use book_match::{AmountIndex, Matched, propose_kept};

const MAX_WINDOW: u64 = 366;

/// All pairs are matched that are proposed for the account. Each of its open lines takes one of its splits that no line
/// has and that aren't reconciled: the nearest with the line's amount, at most `window` days away. The lines choose
/// by day and number, one after another. A new split that is taken becomes cleared.
pub(crate) fn match_auto(
    present: &Present,
    index: &AmountIndex,
    account: u64,
    window: u64,
) -> Result<Step, Refusal>
    requires { index.now.entries ≡ free_splits present.now.book }
    ensures { StepsTo present.now (match_auto present.now account window) result }
{
    let days = check_asked(present, account, window)?;
    let pairs = matches(present, index, account, days)?;
    if pairs.is_empty() {
        return Ok(Step::leaving(present, Answer::MatchAuto { pairs }));
    }
    let edit = pairing_edit(present, pairs.as_slice())?;
    Step::changing(present, 0, edit, Answer::MatchAuto { pairs })
}

/// The account is in the book, and the window is in its limit. It is returned in days.
fn check_asked(present: &Present, account: u64, window: u64) -> Result<u32, Rule>
    ensures rules { ReportsFirst (match_rules present.now.book account window) result }
    ensures days { IfOk result (λ days. days ≡ window) }
{
    known(present, account)?;
    check_window(window)
}

/// The window is at most 366 days. It is returned in days.
fn check_window(window: u64) -> Result<u32, Rule>
    ensures rule { ReportsFirst (wide_window window ∷ []) result }
    ensures days { IfOk result (λ days. days ≡ window) }
{
    if window > MAX_WINDOW {
        return Err(Rule::Limit {
            which: Counted::Window,
            at: MAX_WINDOW,
        });
    }
    Ok(window as u32)
}

/// The pairs that are proposed for the account. The book is sound, as it is in each state.
fn matches(
    present: &Present,
    index: &AmountIndex,
    account: u64,
    window: u32,
) -> Result<Many<Matched>, OutOfMemory>
    requires { index.now.entries ≡ free_splits present.now.book }
    ensures pairs { IfOk result (λ pairs. pairs ≡ matches present.now.book account window) }
    ensures sound { IsSoundBook present.now.book }
{
    let plain = present.plain;
    let lines = open_lines(present.alloc, plain.lines.as_slice(), account)?;
    propose_kept(
        present.alloc,
        lines.as_slice(),
        index,
        account,
        &plain.transactions,
        window,
    )
}
