ghost use Rattle.std.specs.Prelude.{◌≡◌, [], ◌∷◌, ◌++◌, true, IfNone, IfSome, MatchOption};
ghost use Rattle.book_lines.specs.Marks.{is_one_line, mark_of};
ghost use Rattle.book_sample.specs.LastLines.{AreAnswers, is_answered, last_two};

use book_lines::Unanswered;
use memchr::memchr;

/// Whether the machine gave this answer, which then doesn't say why there is none.
fn is_answer(line: &[u8]) -> bool
    ensures { result ≡ is_answered (mark_of line.now) }
{
    line != Unanswered::Memory.text() && line != Unanswered::Keeper.text()
}

/// The first line of a text without its line feed, and what stands behind that; `None` where it has no line feed.
fn cut_line(text: &[u8]) -> Option<(&[u8], &[u8])>
    ensures { MatchOption result (is_one_line text.now ≡ true)
        (λ cut. (is_one_line cut.0.now ≡ true) × (text.now ≡ (cut.0.now ++ 10 ∷ []) ++ cut.1.now)) }
{
    let Some(end) = memchr(b'\n', text) else {
        return None;
    };
    let (line, behind) = text.split_at(end);
    Some((line, &behind[1..]))
}

/// The last two lines of a text of answers, or all of it where it has fewer; `None` where one of its lines says why
/// there is no answer, or where it doesn't end by a line feed.
pub fn last_two_answers(text: &[u8]) -> Option<&[u8]>
    ensures some { IfSome result (λ ends. AreAnswers text.now × (ends.now ≡ last_two text.now)) }
    ensures none { IfNone result (AreAnswers text.now → ⊥) }
{
    let mut line_before = text;
    let mut line = text;
    let mut rest = text;
    'lines: while let Some((first, behind)) = cut_line(rest) {
        if !is_answer(first) {
            return None;
        }
        line_before = line;
        line = rest;
        rest = behind;
    }
    if rest.is_empty() {
        Some(line_before)
    } else {
        None
    }
}
