ghost use Rattle.std.specs.Prelude.{◌≡◌};
ghost use Rattle.book_commodity.specs.Day.{IsDay};
ghost use Rattle.book_sample.specs.Sample.{draw_of, next_state};

use book_commodity::Day;

/// One post of the sample: an amount from one account to another on a day.
#[derive(Clone, Copy, Debug)]
pub(crate) struct Draw {
    pub debited: u64,
    pub credited: u64,
    pub value: u64,
    pub day: Day,
}

/// The next state of the generator (D. E. Knuth's MMIX, modulo 2^64).
#[tactic(auto, unfolding(crate::specs::Sample::next_state))]
pub(crate) fn next_state(state: u64) -> u64
    ensures { result ≡ next_state state }
{
    state
        .wrapping_mul(6_364_136_223_846_793_005)
        .wrapping_add(1_442_695_040_888_963_407)
}

/// The day of a state: one of the 1,461 from 2020-01-01 on.
#[tactic(auto, unfolding(crate::specs::Sample::draw_of))]
fn day_of(state: u64) -> Day
    ensures drawn { result ≡ (draw_of state).day }
    ensures range { IsDay result }
{
    let number = 18_262 + (state >> 50) % 1_461;
    let Some(day) = Day::of_number(number as i32) else {
        unreachable!()
    };
    day
}

/// The draw of a state. Its accounts are two of 3 to 10, and its amount is from 1 to 100,000 cents.
#[tactic(auto, unfolding(crate::specs::Sample::draw_of))]
pub(crate) fn draw_of(state: u64) -> Draw
    ensures drawn { result ≡ draw_of state }
    ensures range { IsDay result.day }
{
    let debited = (state >> 33) % 8;
    let credited = (debited + 1 + (state >> 40) % 7) % 8;
    Draw {
        debited: 3 + debited,
        credited: 3 + credited,
        value: 1 + (state >> 17) % 100_000,
        day: day_of(state),
    }
}
