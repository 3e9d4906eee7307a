use book_commodity::{Day, OutOfMemory, Text};
use book_match::{LineView, Matched, SplitView, propose};
use std::alloc::Global;
use std::test::Fail;

/// How many lines and splits an account has that is drawn.
const LINES: u64 = 40;

const SPLITS: u64 = 60;

/// The next number that is drawn, below the bound.
fn drawn(state: &mut u64, bound: u64) -> u64 {
    *state = state
        .wrapping_mul(6_364_136_223_846_793_005)
        .wrapping_add(1_442_695_040_888_963_407);
    (*state >> 33).checked_rem(bound).unwrap_or(0)
}

/// A day of forty.
fn drawn_day(state: &mut u64) -> Day {
    let Some(day) = Day::of_number(19_723 + drawn(state, 40).min(40) as i32) else {
        unreachable!()
    };
    day
}

/// A number text of two, or most often none.
fn drawn_number(alloc: Global, state: &mut u64) -> Result<Text, OutOfMemory> {
    let text = match drawn(state, 5) {
        0 => "7",
        1 => "8",
        _ => "",
    };
    Ok(Text::of(String::from_str(alloc, text)?))
}

/// Lines of few amounts, whose numbers don't come in their order.
fn drawn_lines(alloc: Global, state: &mut u64) -> Result<Vec<LineView>, OutOfMemory> {
    let mut lines = Vec::new(alloc);
    for place in 0..LINES {
        lines.push(LineView {
            line: place.wrapping_mul(37) % 101,
            day: drawn_day(state),
            amount: drawn(state, 3).min(3) as i64,
            number: drawn_number(alloc, state)?,
        })?;
    }
    Ok(lines)
}

/// Splits of these amounts, whose numbers don't come in their order.
fn drawn_splits(alloc: Global, state: &mut u64) -> Result<Vec<SplitView>, OutOfMemory> {
    let mut splits = Vec::new(alloc);
    for place in 0..SPLITS {
        splits.push(SplitView {
            split: place.wrapping_mul(41) % 103,
            day: drawn_day(state),
            quantity: drawn(state, 3).min(3) as i64,
            num: drawn_number(alloc, state)?,
        })?;
    }
    Ok(splits)
}

/// How near a split is to a line, if the line can take it: by days, by number and by its own number.
fn nearness(line: &LineView, split: &SplitView, window: u32) -> Option<(u32, bool, u64)> {
    let days = line.day.number().abs_diff(split.day.number());
    if split.quantity != line.amount || days > window {
        return None;
    }
    let is_other = line.number.is_empty() || line.number.as_str() != split.num.as_str();
    Some((days, is_other, split.split))
}

/// The split that a line takes: the nearest of all that aren't taken.
fn nearest(line: &LineView, splits: &[SplitView], taken: &[u64], window: u32) -> Option<u64> {
    let mut best: Option<(u32, bool, u64)> = None;
    for split in splits {
        if taken.contains(&split.split) {
            continue;
        }
        best = match (best, nearness(line, split, window)) {
            (Some(best), Some(other)) => Some(best.min(other)),
            (best, other) => best.or(other),
        };
    }
    best.map(|near| near.2)
}

/// The places of lines by day and number.
fn places(alloc: Global, lines: &[LineView]) -> Result<Vec<(i32, u64, usize)>, OutOfMemory> {
    let mut places = Vec::new(alloc);
    for (place, line) in lines.iter().enumerate() {
        places.push((line.day.number(), line.line, place))?;
    }
    places.sort()?;
    Ok(places)
}

/// The pairs that a plain search makes, which goes through all splits for each line.
fn search(
    alloc: Global,
    lines: &[LineView],
    splits: &[SplitView],
    window: u32,
) -> Result<Vec<Matched>, OutOfMemory> {
    let mut pairs = Vec::new(alloc);
    let mut taken = Vec::new(alloc);
    for (_, _, place) in places(alloc, lines)?.as_slice() {
        let Some(line) = lines.get(*place) else {
            continue;
        };
        let Some(split) = nearest(line, splits, taken.as_slice(), window) else {
            continue;
        };
        taken.push(split)?;
        pairs.push(Matched {
            line: line.line,
            split,
        })?;
    }
    Ok(pairs)
}

/// Of an account that is drawn, whether the pairs that are proposed are those of a plain search, and how many they are.
fn compared(alloc: Global, state: &mut u64, window: u32) -> Result<(bool, usize), OutOfMemory> {
    let lines = drawn_lines(alloc, state)?;
    let splits = drawn_splits(alloc, state)?;
    let proposed = propose(alloc, lines.as_slice(), splits.as_slice(), window)?;
    let found = search(alloc, lines.as_slice(), splits.as_slice(), window)?;
    Ok((proposed.as_slice() == found.as_slice(), found.len()))
}

// No line of the program asks for `propose`: `match_auto` goes through the index that is kept.
#[test]
fn proposals_are_those_of_a_plain_search(rt: HostRuntime) -> Result<(), Fail> {
    let mut state = 1;
    for window in [0, 0, 1, 1, 3, 3, 10, 10, 366, 366] {
        let (is_same, pairs) = compared(rt.alloc(), &mut state, window)?;
        assert!(rt; is_same);
        assert!(rt; pairs > 0);
    }
    Ok(())
}
