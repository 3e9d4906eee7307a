ghost use Rattle.std.specs.Prelude.{◌≡◌, ◌+◌, ◌*◌, ◌^◌, ◌<◌, ◌≤◌, ◌↔◌, unsigned_abs, IsSome, IfSome};
ghost use Rattle.std.specs.Int.{IsInRange};
ghost use Rattle.book_commodity.specs.Amount.{nearest, with_sign_of, scaled};

/// The largest size of an amount that `scale` gives.
const LARGEST: u128 = 1_000_000_000_000_000_000_000_000_000_000;

/// What one whole unit of a commodity is worth: num / denom whole units of another, both from 1 to 10^9.
#[derive(Clone, Copy, Debug)]
pub struct Rate {
    pub num: u64,
    pub denom: u64,
    pub ghost num_in: { IsInRange 1 1_000_000_000 num },
    pub ghost denom_in: { IsInRange 1 1_000_000_000 denom },
}

/// An amount in smallest units, `from_fraction` of them a unit, at a rate, in smallest units of the other commodity,
/// `to_fraction` of them a unit; halves go away from zero. `None` exactly where the size is above 10^30.
#[tactic(auto, using(crate::proofs::AmountLemmas::size_with_sign), unfolding(crate::specs::Amount::scaled))]
pub fn scale(amount: i128, rate: Rate, from_fraction: u64, to_fraction: u64) -> Option<i128>
    requires amount { unsigned_abs amount ≤ 10 ^ 19 }
    requires from_fraction { IsInRange 1 1_000_000_000 from_fraction }
    requires to_fraction { IsInRange 1 1_000_000_000 to_fraction }
    ensures some { IsSome result
        ↔ (unsigned_abs (scaled amount rate.num rate.denom from_fraction to_fraction) ≤ 10 ^ 30) }
    ensures value { IfSome result
        (λ worth. worth ≡ scaled amount rate.num rate.denom from_fraction to_fraction) }
{
    let dividend = amount.unsigned_abs() * rate.num as u128 * to_fraction as u128;
    let size = nearest(dividend, rate.denom as u128 * from_fraction as u128);
    if size > LARGEST {
        return None;
    }
    Some(with_sign_of(amount, size))
}

/// The whole number nearest to a quotient, the greater one where it lies halfway.
fn nearest(dividend: u128, divisor: u128) -> u128
    requires divisor { 0 < divisor }
    requires fits { 2 * dividend + 2 * divisor < 2 ^ 128 }
    ensures { result ≡ nearest dividend divisor }
{
    (2 * dividend + divisor) / (2 * divisor)
}

/// The number of this size that is negative where the amount is.
fn with_sign_of(amount: i128, size: u128) -> i128
    requires { size < 2 ^ 127 }
    ensures { result ≡ with_sign_of amount size }
{
    let size = size as i128;
    if amount < 0 { -size } else { size }
}
