ghost use Rattle.std.specs.Prelude.{◌≡◌, ◌<◌, Some, length, option_map, slice_get};
ghost use Rattle.book_statement.specs.Currencies.{fraction_if, fraction_of};

use book_commodity::Commodities;

/// How many smallest units make one unit of the currency with this code; `None` where no commodity of the space
/// `CURRENCY` has the code as its name.
pub fn fraction_of(code: &[u8], known: &Commodities) -> Option<u64>
    ensures { result ≡ fraction_of code.now known.now.entries }
{
    for place in 0..known.len() {
        let found = fraction_if(code, known, place);
        if found.is_some() {
            return found;
        }
    }
    None
}

/// The fraction of the commodity at a place, where it is the currency with this code.
fn fraction_if(code: &[u8], known: &Commodities, place: usize) -> Option<u64>
    requires { place < length known.now.entries }
    ensures { option_map (fraction_if code.now) (slice_get known.now.entries place) ≡ Some result }
{
    let commodity = known.value_at(place);
    if commodity.is_currency() && commodity.name.as_str().as_bytes() == code {
        Some(commodity.fraction)
    } else {
        None
    }
}
