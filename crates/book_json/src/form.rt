ghost use Rattle.std.specs.Prelude.{◌≡◌, ◌<◌, Option, IfOk, length};
ghost use Rattle.serde_json.specs.Data.{Data};
ghost use Rattle.serde_json.specs.View.{view};
ghost use Rattle.book_json.specs.Forms.{whole, whole_signed, flag_form, text_form, filled, day_form};

use book_commodity::{Day, OutOfMemory, Text};
use serde_json::Value;
use std::alloc::Global;
use std::marker::Model;

/// Whole numbers are below it.
const LIMIT: u64 = 1 << 62;

/// A type whose values data of JSON can stand for.
pub trait Form {
    /// What the data stands for, and none where it is of another form.
    ghost form: { Data → Option Self };

    /// What the data stands for, `None` where it is of another form. The only error is out of memory.
    fn read(alloc: Global, value: Value) -> Result<Option<Self>, OutOfMemory>
        ensures { IfOk result (λ read. read ≡ form (view value)) };
}

/// A whole number from 0 to 2^62 - 1.
impl Form for u64 {
    ghost form = { whole };

    #[tactic(auto, unfolding(crate::specs::Forms::whole))]
    fn read(_alloc: Global, value: Value) -> Result<Option<u64>, OutOfMemory> {
        match value.as_u64() {
            Some(number) if number < LIMIT => Ok(Some(number)),
            _ => Ok(None),
        }
    }
}

/// A whole number of 64 bits with sign.
impl Form for i64 {
    ghost form = { whole_signed };

    #[tactic(auto, unfolding(crate::specs::Forms::whole_signed))]
    fn read(_alloc: Global, value: Value) -> Result<Option<i64>, OutOfMemory> {
        Ok(value.as_i64())
    }
}

/// `true` or `false`.
impl Form for bool {
    ghost form = { flag_form };

    fn read(_alloc: Global, value: Value) -> Result<Option<bool>, OutOfMemory> {
        Ok(value.as_bool())
    }
}

/// A text, which may be empty.
impl Form for Text {
    ghost form = { text_form };

    fn read(_alloc: Global, value: Value) -> Result<Option<Text>, OutOfMemory> {
        match value {
            Value::String(text) => Ok(Some(Text::of(text))),
            _ => Ok(None),
        }
    }
}

/// A text that is not empty, which contracts see as the list of its bytes.
#[derive(Drop)]
pub struct Filled {
    text: Text,
}

impl Model for Filled {
    ghost use Rattle.std.specs.Prelude.{ℕ, ◌<◌, List, length};

    ghost Value = { List ℕ };

    ghost view = { λ f. f.text };

    ghost invariant = { λ f. 0 < length f.text };
}

impl Filled {
    /// The text.
    pub fn into_text(self) -> Text
        ensures text { result ≡ self }
        ensures filled { 0 < length result }
    {
        let Filled { text } = self;
        text
    }
}

impl Form for Filled {
    ghost form = { filled };

    #[tactic(auto, unfolding(crate::specs::Forms::filled))]
    fn read(_alloc: Global, value: Value) -> Result<Option<Filled>, OutOfMemory> {
        let Value::String(text) = value else {
            return Ok(None);
        };
        if text.is_empty() {
            return Ok(None);
        }
        Ok(Some(Filled {
            text: Text::of(text),
        }))
    }
}

/// The text of a day, `YYYY-MM-DD`.
impl Form for Day {
    ghost form = { day_form };

    #[tactic(auto, unfolding(crate::specs::Forms::day_form))]
    fn read(_alloc: Global, value: Value) -> Result<Option<Day>, OutOfMemory> {
        let Value::String(text) = value else {
            return Ok(None);
        };
        Ok(Day::of_text(text.as_bytes()))
    }
}
