ghost use Rattle.std.specs.Prelude.{◌≡◌, ◌-◌, ◌^◌};
ghost use Rattle.book_seq.specs.Sums.{AreWithin, difference, listed, no_sums, sum};

use crate::Weigh;

/// Three sums at once, one for each weight of an entry.
#[derive(Clone, Copy)]
pub(crate) struct Sums {
    pub(crate) first: i128,
    pub(crate) second: i128,
    pub(crate) third: i128,
}

impl Sums {
    /// The sums of no entries.
    pub(crate) fn none() -> Sums
        ensures { result ≡ no_sums }
    {
        Sums {
            first: 0,
            second: 0,
            third: 0,
        }
    }

    /// The weights of one entry.
    pub(crate) fn of<E: Weigh>(entry: &E) -> Sums
        ensures weights { result ≡ E.weights entry.now }
        ensures within { AreWithin 1 result }
    {
        let weight = entry.weight();
        Sums {
            first: i128::from(weight[0]),
            second: i128::from(weight[1]),
            third: i128::from(weight[2]),
        }
    }

    /// Each of the sums with that of the other.
    pub(crate) fn plus(self, other: Sums) -> Sums
        requires { AreWithin (2 ^ 64 - 1) (sum self other) }
        ensures { result ≡ sum self other }
    {
        Sums {
            first: self.first + other.first,
            second: self.second + other.second,
            third: self.third + other.third,
        }
    }

    /// Each of the sums without that of the other.
    pub(crate) fn minus(self, other: Sums) -> Sums
        requires { AreWithin (2 ^ 64 - 1) (difference self other) }
        ensures { result ≡ difference self other }
    {
        Sums {
            first: self.first - other.first,
            second: self.second - other.second,
            third: self.third - other.third,
        }
    }

    /// The three sums in order.
    pub(crate) fn to_array(self) -> [i128; 3]
        ensures { result ≡ listed self }
    {
        [self.first, self.second, self.third]
    }
}
