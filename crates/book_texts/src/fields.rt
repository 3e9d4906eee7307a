ghost use Rattle.std.specs.Prelude.{◌≡◌, false};
ghost use Rattle.serde_json.specs.View.{members_view};
ghost use Rattle.serde_json.specs.Written.{members_have_float};

use crate::shown::Shown;
use crate::words::word_text;
use book_command::Word;
use book_commodity::{Bytes, OutOfMemory};
use serde_json::value::Map;
use serde_json::{Value, put};
use std::alloc::{AllocError, Global};

/// The members of an answer, or of an object in one, that is being made; no number in them has a fraction.
#[derive(Drop)]
pub struct Fields {
    alloc: Global,
    members: Map<String, Value>,
    ghost plain: { members_have_float (members_view members.entries) ≡ false },
}

impl Fields {
    ghost use Rattle.std.specs.Prelude.{◌≡◌, [], false, IfOk};
    ghost use Rattle.serde_json.specs.Data.{put as with_member, no_members, object, string};
    ghost use Rattle.serde_json.specs.View.{view};
    ghost use Rattle.serde_json.specs.Written.{has_float};
    ghost use Rattle.book_texts.specs.Fields.{answered as answered_members, broken as broken_members};
    ghost use Rattle.book_texts.specs.Fields.{refused as refused_members, line_of, members_of};

    /// No member yet.
    pub fn new(alloc: Global) -> Fields
        ensures { members_of result ≡ no_members }
    {
        Fields {
            alloc,
            members: Map::new(alloc),
        }
    }

    /// What every accepted command is answered: its word and the version after it.
    pub fn answered(alloc: Global, word: Word, version: u64) -> Result<Fields, AllocError>
        ensures { IfOk result (λ fields. members_of fields ≡ answered_members word [] version) }
    {
        let answered = Fields::new(alloc).with_text("ok", word_text(word))?;
        Ok(answered.with("version", &version)?)
    }

    /// What every command that would break a rule is answered: the rule's name and the version, which stays.
    pub fn broken(alloc: Global, name: &str, version: u64) -> Result<Fields, AllocError>
        ensures { IfOk result (λ fields. members_of fields ≡ broken_members name.now [] version) }
    {
        let broken = Fields::new(alloc).with_text("broken", name)?;
        Ok(broken.with("version", &version)?)
    }

    /// What every line that is no command is answered: the cause.
    pub fn refused(alloc: Global, cause: &str) -> Result<Fields, AllocError>
        ensures { IfOk result (λ fields. members_of fields ≡ refused_members cause.now []) }
    {
        Ok(Fields::new(alloc).with_text("refused", cause)?)
    }

    /// These members and one more, which is in place of the one with that name, where there was one.
    pub fn with<T: Shown>(self, name: &str, value: &T) -> Result<Fields, AllocError>
        ensures { IfOk result (λ fields. members_of fields
            ≡ with_member name.now (T.shown value.now) (members_of self)) }
    {
        let value = value.value(self.alloc)?;
        Ok(self.put(name, value)?)
    }

    /// These members and a text.
    pub fn with_text(self, name: &str, text: &str) -> Result<Fields, AllocError>
        ensures { IfOk result (λ fields. members_of fields
            ≡ with_member name.now (string text.now) (members_of self)) }
    {
        let text = String::from_str(self.alloc, text)?;
        Ok(self.put(name, Value::String(text))?)
    }

    fn put(self, name: &str, value: Value) -> Result<Fields, AllocError>
        requires { has_float (view value) ≡ false }
        ensures { IfOk result (λ fields. members_of fields ≡ with_member name.now (view value) (members_of self)) }
    {
        let Fields { alloc, mut members } = self;
        put(&mut members, alloc, name, value)?;
        Ok(Fields { alloc, members })
    }

    /// The members as one object.
    pub fn into_value(self) -> Value
        ensures { view result ≡ object (members_of self) }
    {
        let Fields { alloc: _, members } = self;
        Value::Object(members)
    }

    /// The line of the members, without its line feed. The only error is out of memory.
    pub fn line(self) -> Result<Bytes, OutOfMemory>
        ensures { IfOk result (λ line. line ≡ line_of (members_of self)) }
    {
        let Fields { alloc, members } = self;
        let value = Value::Object(members);
        Ok(Bytes::of(value.to_string(alloc)?.into_bytes()))
    }
}
