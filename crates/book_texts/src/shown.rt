ghost use Rattle.std.specs.Prelude.{◌≡◌, false, IfOk, refl, string_bytes};
ghost use Rattle.serde_json.specs.Data.{Data, boolean, string};
ghost use Rattle.serde_json.specs.View.{view};
ghost use Rattle.serde_json.specs.Written.{has_float};
ghost use Rattle.book_commodity.specs.Day.{day_text};
ghost use Rattle.book_texts.specs.Shown.{day_data, list_data, list-plain, number_data, option_data, option-plain};
ghost use Rattle.book_texts.specs.Shown.{signed_data, signed-plain, sum_data};

use book_commodity::{Day, Many, Text};
use serde_json::Value;
use std::alloc::{AllocError, Global};

/// A type whose values answers can show.
pub trait Shown {
    /// The data that shows a value.
    ghost shown: { Self → Data };

    /// The data that shows the value. The only error is out of memory.
    fn value(&self, alloc: Global) -> Result<Value, AllocError>
        ensures { IfOk result (λ value. view value ≡ shown self.now) };

    /// No number in it has a fraction.
    ghost plain: { (x : Self) → has_float (shown x) ≡ false };
}

/// A number.
impl Shown for u64 {
    ghost shown = { number_data };

    ghost plain = { λ number. refl };

    fn value(&self, _alloc: Global) -> Result<Value, AllocError> {
        Ok(Value::from(*self))
    }
}

/// A number with sign.
impl Shown for i64 {
    ghost shown = { signed_data };

    ghost plain = { signed-plain };

    fn value(&self, _alloc: Global) -> Result<Value, AllocError> {
        Ok(Value::from(*self))
    }
}

/// A sum, as the text of its digits.
impl Shown for i128 {
    ghost shown = { sum_data };

    ghost plain = { λ sum. refl };

    fn value(&self, alloc: Global) -> Result<Value, AllocError> {
        Ok(Value::String(self.to_string(alloc)?))
    }
}

/// `true` or `false`.
impl Shown for bool {
    ghost shown = { boolean };

    ghost plain = { λ truth. refl };

    fn value(&self, _alloc: Global) -> Result<Value, AllocError> {
        Ok(Value::Bool(*self))
    }
}

/// A text.
impl Shown for Text {
    ghost shown = { string };

    ghost plain = { λ text. refl };

    fn value(&self, alloc: Global) -> Result<Value, AllocError> {
        Ok(Value::String(String::from_str(alloc, self.as_str())?))
    }
}

/// A day, as its text.
impl Shown for Day {
    ghost shown = { day_data };

    ghost plain = { λ day. refl };

    fn value(&self, alloc: Global) -> Result<Value, AllocError> {
        Ok(Value::String(day_string(alloc, *self)?))
    }
}

/// The text of a day.
fn day_string(alloc: Global, day: Day) -> Result<String, AllocError>
    ensures { IfOk result (λ text. string_bytes text ≡ day_text day) }
{
    let bytes = Vec::from_slice(alloc, &day.text())?;
    let Ok(text) = String::from_utf8(bytes) else {
        unreachable!()
    };
    Ok(text)
}

/// What may be absent; null where it is.
impl<T: Shown> Shown for Option<T> {
    ghost shown = { option_data T.shown };

    ghost plain = { option-plain T.shown T.plain };

    fn value(&self, alloc: Global) -> Result<Value, AllocError> {
        match self {
            Some(present) => present.value(alloc),
            None => Ok(Value::Null),
        }
    }
}

/// A list, each item shown in its own way.
impl<T: Shown> Shown for Many<T> {
    ghost shown = { list_data T.shown };

    ghost plain = { list-plain T.shown T.plain };

    fn value(&self, alloc: Global) -> Result<Value, AllocError> {
        let mut values = Vec::new(alloc);
        for item in self.as_slice() {
            values.push(item.value(alloc)?)?;
        }
        Ok(Value::Array(values))
    }
}
