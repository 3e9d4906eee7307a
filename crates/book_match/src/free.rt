ghost use Rattle.std.specs.Prelude.{◌≡◌, ◌+ℤ◌, ◌-ℤ◌, int_lt, pos};
ghost use Rattle.book_match.specs.AmountIndex.{is_same as is_same_free, precedes as stands_before};
ghost use Rattle.book_match.specs.Bounds.{is_past_amount as is_past, is_past_days as is_past_near};
ghost use Rattle.book_match.specs.Bounds.{is_under_amount as is_under, is_under_days as is_under_near};

use book_commodity::Day;
use book_seq::Weigh;

/// A split that may be matched: its account, its quantity in smallest units as `amount`, the day of its transaction,
/// and its number.
#[derive(Clone, Copy, Debug, PartialEq, Eq)]
pub struct Free {
    pub account: u64,
    pub amount: i64,
    pub day: Day,
    pub split: u64,
}

/// An index adds nothing up: a split has no weight.
impl Weigh for Free {
    ghost use Rattle.book_seq.specs.Sums.{no_sums};

    ghost weights = { λ free. no_sums };

    fn weight(&self) -> [i64; 3] {
        [0, 0, 0]
    }
}

/// Whether one split comes before another: by account, amount, day and number.
pub(crate) fn precedes(one: &Free, other: &Free) -> bool
    ensures { result ≡ stands_before one.now other.now }
{
    if one.account != other.account {
        return one.account < other.account;
    }
    if one.amount != other.amount {
        return one.amount < other.amount;
    }
    if one.day.number() != other.day.number() {
        return one.day.number() < other.day.number();
    }
    one.split < other.split
}

impl Free {
    /// Whether the two are the same split of the same account, amount and day.
    pub fn is_same(&self, other: &Free) -> bool
        ensures { result ≡ is_same_free self.now other.now }
    {
        self.account == other.account
            && self.amount == other.amount
            && self.day.number() == other.day.number()
            && self.split == other.split
    }
}

/// Whether the split comes before those of the account with this amount.
pub(crate) fn is_under_amount(free: &Free, account: u64, amount: i64) -> bool
    ensures { result ≡ is_under account amount free.now }
{
    if free.account != account {
        return free.account < account;
    }
    free.amount < amount
}

/// Whether the split comes behind those of the account with this amount.
pub(crate) fn is_past_amount(free: &Free, account: u64, amount: i64) -> bool
    ensures { result ≡ is_past account amount free.now }
{
    if free.account != account {
        return free.account > account;
    }
    free.amount > amount
}

/// Whether the split comes before those of the account with this amount that are at most so many days away from the
/// day.
pub(crate) fn is_under_days(free: &Free, account: u64, amount: i64, day: Day, window: u32) -> bool
    ensures { result ≡ is_under_near account amount day window free.now }
{
    if free.account != account {
        return free.account < account;
    }
    if free.amount != amount {
        return free.amount < amount;
    }
    is_before(free.day, day, window)
}

/// Whether the split comes behind those of the account with this amount that are at most so many days away from the
/// day.
pub(crate) fn is_past_days(free: &Free, account: u64, amount: i64, day: Day, window: u32) -> bool
    ensures { result ≡ is_past_near account amount day window free.now }
{
    if free.account != account {
        return free.account > account;
    }
    if free.amount != amount {
        return free.amount > amount;
    }
    is_after(free.day, day, window)
}

/// Whether a day is more than so many days before another.
fn is_before(day: Day, other: Day, window: u32) -> bool
    ensures { result ≡ int_lt day (other -ℤ pos window) }
{
    let first = i64::from(other.number()) - i64::from(window);
    i64::from(day.number()) < first
}

/// Whether a day is more than so many days after another.
fn is_after(day: Day, other: Day, window: u32) -> bool
    ensures { result ≡ int_lt (other +ℤ pos window) day }
{
    let last = i64::from(other.number()) + i64::from(window);
    last < i64::from(day.number())
}
