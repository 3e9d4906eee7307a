ghost use Rattle.std.specs.Prelude.{◌≡◌};
ghost use Rattle.book_match.specs.Rank.{first_of, is_first as comes_first};

/// How near a split is to a line: in days, whether it has the line's number, and the split's own number.
#[derive(Clone, Copy)]
pub(crate) struct Rank {
    pub(crate) days: u32,
    pub(crate) same: bool,
    pub(crate) split: u64,
}

/// Whether one is nearer than another: by days, then by the line's number, then by the split's.
fn is_first(one: Rank, other: Rank) -> bool
    ensures { result ≡ comes_first one other }
{
    if one.days != other.days {
        return one.days < other.days;
    }
    if one.same != other.same {
        return one.same;
    }
    one.split < other.split
}

/// The nearer of one and the nearest before it, if there was one.
pub(crate) fn nearer(best: Option<Rank>, rank: Rank) -> Rank
    ensures { result ≡ first_of best rank }
{
    match best {
        Some(best) if !is_first(rank, best) => best,
        _ => rank,
    }
}
