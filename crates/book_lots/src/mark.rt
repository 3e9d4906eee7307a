ghost use Rattle.std.specs.Prelude.{◌≡◌, []};
ghost use Rattle.book_lots.specs.Sides.{mark_of};

/// How far the splits of one sign are known and paired: how many there are, how many of them are paired in full, their
/// units, and how many of the units are paired.
#[derive(Clone, Copy)]
pub(crate) struct SideMark {
    pub(crate) len: usize,
    pub(crate) head: usize,
    pub(crate) units: u64,
    pub(crate) paired: u64,
}

/// What has to be known of so many first entries to forget all later ones.
#[derive(Clone, Copy)]
pub(crate) struct Mark {
    pub(crate) entries: usize,
    pub(crate) bought: SideMark,
    pub(crate) sold: SideMark,
    pub(crate) pairs: usize,
    pub(crate) adjustments: i128,
}

impl Mark {
    /// The mark of no entries.
    pub(crate) fn none() -> Mark
        ensures { result ≡ mark_of [] }
    {
        let side = SideMark {
            len: 0,
            head: 0,
            units: 0,
            paired: 0,
        };
        Mark {
            entries: 0,
            bought: side,
            sold: side,
            pairs: 0,
            adjustments: 0,
        }
    }
}
