ghost use Rattle.std.specs.Prelude.{not};
ghost use Rattle.book_match.specs.AmountIndex.{precedes as stands_before};
ghost use Rattle.book_match.specs.Bounds.{is_past_amount as past, is_past_days as past_near};
ghost use Rattle.book_match.specs.Bounds.{is_under_amount as under, is_under_days as under_near};

use crate::Free;
use crate::free::{is_past_amount, is_past_days, is_under_amount, is_under_days, precedes};
use book_commodity::Day;
use book_seq::Test;

/// The splits that come before one.
#[derive(Clone, Copy)]
pub(crate) struct Before {
    pub(crate) free: Free,
}

impl Test<Free> for Before {
    ghost is_passed = { λ test entry. stands_before entry test.free };

    fn passes(&self, entry: &Free) -> bool {
        precedes(entry, &self.free)
    }
}

/// The splits that come before those of the account with the amount.
#[derive(Clone, Copy)]
pub(crate) struct AmountStart {
    pub(crate) account: u64,
    pub(crate) amount: i64,
}

impl Test<Free> for AmountStart {
    ghost is_passed = { λ test entry. under test.account test.amount entry };

    fn passes(&self, entry: &Free) -> bool {
        is_under_amount(entry, self.account, self.amount)
    }
}

/// The splits that come before the end of those of the account with the amount.
#[derive(Clone, Copy)]
pub(crate) struct AmountEnd {
    pub(crate) account: u64,
    pub(crate) amount: i64,
}

impl Test<Free> for AmountEnd {
    ghost is_passed = { λ test entry. not (past test.account test.amount entry) };

    fn passes(&self, entry: &Free) -> bool {
        !is_past_amount(entry, self.account, self.amount)
    }
}

/// The splits that come before those of the account with the amount that are at most so many days away from the day.
#[derive(Clone, Copy)]
pub(crate) struct DaysStart {
    pub(crate) account: u64,
    pub(crate) amount: i64,
    pub(crate) day: Day,
    pub(crate) window: u32,
}

impl Test<Free> for DaysStart {
    ghost is_passed = { λ test entry. under_near test.account test.amount test.day test.window entry };

    fn passes(&self, entry: &Free) -> bool {
        is_under_days(entry, self.account, self.amount, self.day, self.window)
    }
}

/// The splits that come before the end of those of the account with the amount that are at most so many days away from
/// the day.
#[derive(Clone, Copy)]
pub(crate) struct DaysEnd {
    pub(crate) account: u64,
    pub(crate) amount: i64,
    pub(crate) day: Day,
    pub(crate) window: u32,
}

impl Test<Free> for DaysEnd {
    ghost is_passed = { λ test entry. not (past_near test.account test.amount test.day test.window entry) };

    fn passes(&self, entry: &Free) -> bool {
        !is_past_days(entry, self.account, self.amount, self.day, self.window)
    }
}
