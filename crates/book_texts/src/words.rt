ghost use Rattle.std.specs.Prelude.{◌≡◌, refl};
ghost use Rattle.book_texts.specs.Words.{kind_data, kind_word, limit_data, limit_word, word_text};

use crate::shown::Shown;
use book_command::{Word, words};
use book_commodity::{Counted, Kind};
use book_json::word_of;
use serde_json::Value;
use std::alloc::{AllocError, Global};

/// The words for kinds of things.
const KINDS: [(&str, Kind); 10] = [
    ("commodity", Kind::Commodity),
    ("account", Kind::Account),
    ("transaction", Kind::Transaction),
    ("split", Kind::Split),
    ("price", Kind::Price),
    ("schedule", Kind::Schedule),
    ("statement", Kind::Statement),
    ("line", Kind::Line),
    ("binding", Kind::Binding),
    ("reconciliation", Kind::Reconciliation),
];

/// The words for what has a limit.
const LIMITS: [(&str, Counted); 14] = [
    ("amount", Counted::Amount),
    ("transactions", Counted::Transactions),
    ("splits", Counted::Splits),
    ("accounts", Counted::Accounts),
    ("commodities", Counted::Commodities),
    ("prices", Counted::Prices),
    ("schedules", Counted::Schedules),
    ("lines", Counted::Lines),
    ("statements", Counted::Statements),
    ("bindings", Counted::Bindings),
    ("recons", Counted::Recons),
    ("days", Counted::Days),
    ("window", Counted::Window),
    ("numbers", Counted::Numbers),
];

/// A kind of thing, by its word.
impl Shown for Kind {
    ghost shown = { kind_data };

    ghost plain = { λ kind. refl };

    fn value(&self, alloc: Global) -> Result<Value, AllocError> {
        Ok(Value::String(String::from_str(alloc, kind_text(*self))?))
    }
}

/// What has a limit, by its word.
impl Shown for Counted {
    ghost shown = { limit_data };

    ghost plain = { λ which. refl };

    fn value(&self, alloc: Global) -> Result<Value, AllocError> {
        Ok(Value::String(String::from_str(alloc, limit_text(*self))?))
    }
}

#[tactic(auto, unfolding(crate::specs::Words::kind_word))]
fn kind_text(kind: Kind) -> &'static str
    ensures { result.now ≡ kind_word kind }
{
    word_of(&KINDS, kind)
}

#[tactic(auto, unfolding(crate::specs::Words::limit_word))]
fn limit_text(which: Counted) -> &'static str
    ensures { result.now ≡ limit_word which }
{
    word_of(&LIMITS, which)
}

/// The text of a command's word.
#[tactic(auto, unfolding(crate::specs::Words::word_text))]
pub(crate) fn word_text(word: Word) -> &'static str
    ensures { result.now ≡ word_text word }
{
    word_of(words(), word)
}
