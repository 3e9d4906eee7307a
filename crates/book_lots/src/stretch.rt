ghost use Rattle.std.specs.Prelude.{◌≡◌, ◌*◌, ◌≤◌, unsigned_abs};
ghost use Rattle.book_limits.specs.Limits.{largest_split_amount};
ghost use Rattle.book_lots.specs.Lots.{common_from, common_to, day_of_later, end_of, gain_from, lot_past, pair_of_two};
ghost use Rattle.book_lots.specs.Lots.{share_of, stretch_at, value_of_first};
ghost use Rattle.book_lots.specs.Sides.{IsBounded};

use crate::{OpenLot, Pair};
use book_commodity::Day;
use book_register::Entry;

/// A split whose quantity isn't 0, with its place in the register and the number of the first of its units. The units
/// of all splits of one sign are numbered from 0, in the order of the register.
#[derive(Clone, Copy)]
pub(crate) struct Stretch {
    pub(crate) place: usize,
    pub(crate) first: u64,
    pub(crate) split: u64,
    pub(crate) day: Day,
    pub(crate) quantity: i64,
    pub(crate) value: i64,
}

impl Stretch {
    /// The split at a place of the register, with the number of its first unit.
    pub(crate) fn of(place: usize, first: u64, entry: &Entry) -> Stretch
        ensures { result ≡ stretch_at place first entry.now }
    {
        Stretch {
            place,
            first,
            split: entry.split,
            day: entry.day,
            quantity: entry.quantity,
            value: entry.value,
        }
    }

    /// The number past that of its last unit.
    pub(crate) fn end(&self) -> u64
        requires { IsBounded self.now }
        ensures { result ≡ end_of self.now }
    {
        self.first + self.quantity.unsigned_abs()
    }

    /// The part of the value that falls to so many first units, cut toward zero.
    fn part_of_value(&self, count: u64) -> i128
        requires bounded { IsBounded self.now }
        requires within { count ≤ unsigned_abs self.now.quantity }
        ensures part { result ≡ value_of_first self.now.value (unsigned_abs self.now.quantity) count }
        ensures bound { unsigned_abs result ≤ largest_split_amount }
    {
        let size = self.value.unsigned_abs() as u128 * count as u128
            / self.quantity.unsigned_abs() as u128;
        if self.value < 0 {
            -(size as i128)
        } else {
            size as i128
        }
    }

    /// The part of the value that falls to the units from one number up to another.
    fn share(&self, from: u64, to: u64) -> i128
        requires bounded { IsBounded self.now }
        requires least { self.now.first ≤ from }
        requires order { from ≤ to }
        requires most { to ≤ end_of self.now }
        ensures share { result ≡ share_of self.now from to }
        ensures bound { unsigned_abs result ≤ 2 * largest_split_amount }
    {
        self.part_of_value(to - self.first) - self.part_of_value(from - self.first)
    }

    /// The units from a number on, as an open lot; all of them where the number is that of the first or lower.
    pub(crate) fn rest(&self, number: u64) -> OpenLot
        requires bounded { IsBounded self.now }
        requires most { number ≤ end_of self.now }
        ensures { result ≡ lot_past number self.now }
    {
        let from = number.max(self.first);
        let units = (self.end() - from) as i64;
        OpenLot {
            split: self.split,
            units: if self.quantity < 0 { -units } else { units },
            cost: self.share(from, self.end()),
        }
    }
}

/// The units whose numbers two splits of different sign have in common, as a pair.
pub(crate) fn pair_of(plus: &Stretch, minus: &Stretch) -> Pair
    requires plus { IsBounded plus.now }
    requires minus { IsBounded minus.now }
    requires common { common_from plus.now minus.now ≤ common_to plus.now minus.now }
    ensures { result ≡ pair_of_two plus.now minus.now }
{
    let from = plus.first.max(minus.first);
    let to = plus.end().min(minus.end());
    Pair {
        plus: plus.split,
        minus: minus.split,
        units: (to - from) as i64,
        day: later_day(plus, minus),
        gain: gain_between(plus, minus, from, to),
    }
}

/// The day of the one that stands later in the register.
fn later_day(plus: &Stretch, minus: &Stretch) -> Day
    ensures { result ≡ day_of_later plus.now minus.now }
{
    if plus.place < minus.place {
        return minus.day;
    }
    plus.day
}

/// What the units from one number up to another of two splits give together, with the sign turned.
fn gain_between(plus: &Stretch, minus: &Stretch, from: u64, to: u64) -> i128
    requires plus { IsBounded plus.now }
    requires minus { IsBounded minus.now }
    requires least { plus.now.first ≤ from }
    requires least_minus { minus.now.first ≤ from }
    requires order { from ≤ to }
    requires most { to ≤ end_of plus.now }
    requires most_minus { to ≤ end_of minus.now }
    ensures { result ≡ gain_from plus.now minus.now from to }
{
    -(plus.share(from, to) + minus.share(from, to))
}
