ghost use Rattle.std.specs.Prelude.{◌≡◌, IfOk};
ghost use Rattle.book_texts.specs.Fields.{members_of};
ghost use Rattle.book_texts.specs.Prices.{price, price_set, rate_data, rate-plain};

use crate::fields::Fields;
use crate::shown::Shown;
use book_command::{Ratio, Word};
use serde_json::Value;
use std::alloc::{AllocError, Global};

/// The answer of `price_set`.
pub(crate) fn price_set(alloc: Global, price: u64, version: u64) -> Result<Fields, AllocError>
    ensures { IfOk result (λ fields. members_of fields ≡ price_set price version) }
{
    let fields = Fields::answered(alloc, Word::PriceSet, version)?;
    Ok(fields.with("price", &price)?)
}

/// The answer of `price`.
pub(crate) fn price(alloc: Global, rate: &Option<Ratio>, version: u64) -> Result<Fields, AllocError>
    ensures { IfOk result (λ fields. members_of fields ≡ price rate.now version) }
{
    let fields = Fields::answered(alloc, Word::Price, version)?;
    Ok(fields.with("rate", rate)?)
}

/// A rate as its two numbers.
impl Shown for Ratio {
    ghost shown = { rate_data };

    ghost plain = { rate-plain };

    fn value(&self, alloc: Global) -> Result<Value, AllocError> {
        let mut numbers = Vec::new(alloc);
        numbers.push(Value::from(self.num))?;
        numbers.push(Value::from(self.denom))?;
        Ok(Value::Array(numbers))
    }
}
