ghost use Rattle.std.specs.Prelude.{◌≡◌, ◌≤◌, IfOk, length};
ghost use Rattle.gate_rows.specs.Lines.{behind_lines, first_lines, lines_length, without_line};

use std::alloc::{AllocError, Global};

/// The first lines of a text, so many of them.
pub fn first_lines(text: &[u8], count: u64) -> &[u8]
    ensures { result.now ≡ first_lines count text.now }
{
    text.split_at(length_of(text, count)).0
}

/// What stands behind the first lines of a text, so many of them.
fn behind_lines(text: &[u8], count: u64) -> &[u8]
    ensures { result.now ≡ behind_lines count text.now }
{
    text.split_at(length_of(text, count)).1
}

/// How many bytes the first lines of a text have, so many of them.
#[tactic(auto, using(crate::proofs::LineLemmas::length_more))]
fn length_of(text: &[u8], count: u64) -> usize
    ensures value { result ≡ lines_length count text.now }
    ensures within { result ≤ length text.now }
{
    let mut left = count;
    for (place, byte) in text.iter().enumerate() {
        if left == 0 {
            return place;
        }
        if *byte == b'\n' {
            left -= 1;
        }
    }
    text.len()
}

/// The lines but for the one at a place, counted from 0.
pub fn without_line(alloc: Global, lines: &[u8], place: usize) -> Result<Vec<u8>, AllocError>
    ensures { IfOk result (λ others. others.items ≡ without_line place lines.now) }
{
    let mut others = Vec::new(alloc);
    others.extend_from_slice(first_lines(lines, place as u64))?;
    others.extend_from_slice(behind_lines(behind_lines(lines, place as u64), 1))?;
    Ok(others)
}
