ghost use Rattle.std.specs.Prelude.{◌≡◌, ◌≤◌, ◌^◌, unsigned_abs};
ghost use Rattle.std.specs.Int.{IsInRange};
ghost use Rattle.book_prices.specs.Worth.{worth_of};

use book_commodity::{Rate, scale};

/// What a balance is worth in smallest units of another commodity; or that there is no price for it, or that the
/// amount is above 10^30 in size.
#[derive(Clone, Copy, Debug, PartialEq, Eq)]
pub enum Valuation {
    Amount(i128),
    NoPrice,
    Over,
}

/// The worth of a balance at a rate: `from_fraction` of its smallest units make a unit of its commodity, and
/// `to_fraction` of those of the other. A balance of zero is worth zero, also without a rate.
pub fn worth(balance: i128, rate: Option<Rate>, from_fraction: u64, to_fraction: u64) -> Valuation
    requires balance { unsigned_abs balance ≤ 10 ^ 19 }
    requires from_fraction { IsInRange 1 1_000_000_000 from_fraction }
    requires to_fraction { IsInRange 1 1_000_000_000 to_fraction }
    ensures { result ≡ worth_of balance rate from_fraction to_fraction }
{
    if balance == 0 {
        return Valuation::Amount(0);
    }
    let Some(rate) = rate else {
        return Valuation::NoPrice;
    };
    match scale(balance, rate, from_fraction, to_fraction) {
        Some(amount) => Valuation::Amount(amount),
        None => Valuation::Over,
    }
}
