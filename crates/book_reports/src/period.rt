ghost use Rattle.std.specs.Prelude.{◌≡◌, ◌≤◌, unsigned_abs, pos, None, Some, if◌then◌else◌};
ghost use Rattle.book_register.specs.Register.{balance};
ghost use Rattle.book_limits.specs.Limits.{largest_sum};
ghost use Rattle.book_reports.specs.Measure.{CanBeSummed, is_in, rows_in};

use book_commodity::{Day, Steps};
use book_register::{Entry, Register};

/// A period: all days up to the last, or those from a first day on.
#[derive(Clone, Copy, Debug)]
pub(crate) struct Period {
    pub(crate) from: Option<Day>,
    pub(crate) to: Day,
}

impl Period {
    /// All days up to a day.
    pub(crate) fn until(day: Day) -> Period
        ensures { result ≡ record { from = None; to = day } }
    {
        Period {
            from: None,
            to: day,
        }
    }

    /// The days from one to another, both among them.
    pub(crate) fn between(first: Day, last: Day) -> Period
        ensures { result ≡ record { from = Some first; to = last } }
    {
        Period {
            from: Some(first),
            to: last,
        }
    }

    /// Whether a day lies in the period.
    pub(crate) fn holds(&self, day: Day) -> bool
        ensures { result ≡ is_in self.now day }
    {
        match self.from {
            Some(first) if first > day => false,
            _ => day <= self.to,
        }
    }

    /// The quantity of a row in the period; nothing of another row.
    fn quantity_in(&self, row: &Entry) -> i64
        ensures { result ≡ (if is_in self.now row.now.day then row.now.quantity else pos 0) }
    {
        if self.holds(row.day) { row.quantity } else { 0 }
    }

    /// The value of a row in the period; nothing of another row.
    pub(crate) fn value_of(&self, row: &Entry) -> i64
        ensures { result ≡ (if is_in self.now row.now.day then row.now.value else pos 0) }
    {
        if self.holds(row.day) { row.value } else { 0 }
    }

    /// The sum of the quantities of the rows in the period.
    #[tactic(auto, using(crate::proofs::RowLemmas::period_small))]
    pub(crate) fn sum_in(&self, register: &Register) -> i128
        requires { CanBeSummed register.now.rows }
        ensures sum { result ≡ balance (rows_in self.now register.now.rows) }
        ensures small { unsigned_abs result ≤ largest_sum }
    {
        match self.from {
            None => register.balances_at(self.to, &mut Steps::new()).all,
            Some(_) => self.sum_of_rows(register),
        }
    }

    /// The same, row by row.
    fn sum_of_rows(&self, register: &Register) -> i128
        requires { CanBeSummed register.now.rows }
        ensures sum { result ≡ balance (rows_in self.now register.now.rows) }
        ensures small { unsigned_abs result ≤ largest_sum }
    {
        let mut steps = Steps::new();
        let mut sum = 0i128;
        for place in 0..register.len() {
            let row = register.row(place, &mut steps);
            sum += i128::from(self.quantity_in(&row));
        }
        sum
    }
}
