ghost use Rattle.std.specs.Prelude.{◌≡◌, Option, option_map};
ghost use Rattle.serde_json.specs.Find.{get_member};
ghost use Rattle.serde_json.specs.View.{members_view, view};
ghost use Rattle.book_json.specs.Forms.{among, inner, list};
ghost use Rattle.book_json.specs.Members.{without, needed, optional, text, flag, absent, ends, complete};
ghost use Rattle.book_json.specs.Reads.{rest, IsFaultOf, Gives, Completes};
ghost use Rattle.book_json.specs.Words.{rows_of};

use crate::inside::{inner, list};
use crate::word::among;
use crate::{Fault, Form, Object};
use book_commodity::{Many, Text};
use serde_json::Value;
use serde_json::value::Map;
use std::alloc::Global;

/// The members of an object that are left to read. Each call takes one away by its name; after a fault nothing is
/// said of those left.
#[derive(Drop)]
pub struct Reading {
    alloc: Global,
    members: Map<String, Value>,
}

impl Reading {
    /// All members of an object.
    pub(crate) fn of(alloc: Global, members: Map<String, Value>) -> Reading
        ensures { rest result ≡ members_view members.entries }
    {
        Reading { alloc, members }
    }

    /// Takes the member of that name away; `None` where it is absent.
    fn take(&mut self, name: &str) -> Option<Value>
        ensures member { option_map view result ≡ get_member name.now (rest self.old) }
        ensures left { rest self.new ≡ without name.now (rest self.old) }
    {
        self.members.remove(name)
    }

    /// The member of that name, which must stand; it fails where it is absent, and where it is of another form.
    pub fn needed<F: Form + Drop>(&mut self, name: &str) -> Result<F, Fault>
        ensures { Gives (needed F.form name.now (rest self.old)) result (rest self.new) }
    {
        let Some(value) = self.take(name) else {
            return Err(self.fault(name));
        };
        let Some(read) = F::read(self.alloc, value)? else {
            return Err(self.fault(name));
        };
        Ok(read)
    }

    /// The member of that name by a table of words; it fails where it is absent, and where it is not the text of one
    /// of the words.
    pub fn word<W: Copy>(&mut self, name: &str, table: &[(&str, W)]) -> Result<W, Fault>
        ensures { Gives (needed (among (rows_of table.now)) name.now (rest self.old)) result (rest self.new) }
    {
        let Some(value) = self.take(name) else {
            return Err(self.fault(name));
        };
        let Some(read) = among(value, table) else {
            return Err(self.fault(name));
        };
        Ok(read)
    }

    /// The member of that name, a list of objects of one table; it fails where it is absent, and where it or one of
    /// its items is of another form.
    pub fn objects<O: Object>(&mut self, name: &str) -> Result<Many<O::Value>, Fault>
        ensures { Gives (needed (list (inner O.reader)) name.now (rest self.old)) result (rest self.new) }
    {
        let Some(value) = self.take(name) else {
            return Err(self.fault(name));
        };
        let Some(read) = list::<O>(self.alloc, value)? else {
            return Err(self.fault(name));
        };
        Ok(read)
    }

    /// The member of that name, `None` where it is absent; it fails where it is of another form, as `null` is.
    pub fn optional<F: Form + Drop>(&mut self, name: &str) -> Result<Option<F>, Fault>
        ensures { Gives (optional F.form name.now (rest self.old)) result (rest self.new) }
    {
        let Some(value) = self.take(name) else {
            return Ok(None);
        };
        let Some(read) = F::read(self.alloc, value)? else {
            return Err(self.fault(name));
        };
        Ok(Some(read))
    }

    /// The member of that name by a table of words, `None` where it is absent; it fails where it is not the text of one
    /// of the words.
    pub fn optional_word<W: Copy + Drop>(
        &mut self,
        name: &str,
        table: &[(&str, W)],
    ) -> Result<Option<W>, Fault>
        ensures { Gives (optional (among (rows_of table.now)) name.now (rest self.old)) result (rest self.new) }
    {
        let Some(value) = self.take(name) else {
            return Ok(None);
        };
        let Some(read) = among(value, table) else {
            return Err(self.fault(name));
        };
        Ok(Some(read))
    }

    /// The member of that name, an object, `None` where it is absent; it fails where it is of another form.
    pub fn optional_object<O: Object>(&mut self, name: &str) -> Result<Option<O::Value>, Fault>
        ensures { Gives (optional (inner O.reader) name.now (rest self.old)) result (rest self.new) }
    {
        let Some(value) = self.take(name) else {
            return Ok(None);
        };
        let Some(read) = inner::<O>(self.alloc, value)? else {
            return Err(self.fault(name));
        };
        Ok(Some(read))
    }

    /// The text of that name, empty where it is absent; it fails where it is no text.
    #[tactic(auto, unfolding(crate::specs::Members::text))]
    pub fn text(&mut self, name: &str) -> Result<Text, Fault>
        ensures { Gives (text name.now (rest self.old)) result (rest self.new) }
    {
        match self.optional(name)? {
            Some(text) => Ok(text),
            None => Ok(Text::new(self.alloc)),
        }
    }

    /// Whether the member of that name is `true`; it fails where it is given and neither `true` nor `false`.
    #[tactic(auto, unfolding(crate::specs::Members::flag))]
    pub fn flag(&mut self, name: &str) -> Result<bool, Fault>
        ensures { Gives (flag name.now (rest self.old)) result (rest self.new) }
    {
        match self.optional(name)? {
            Some(flag) => Ok(flag),
            None => Ok(false),
        }
    }

    /// No value of a member that may not stand; it fails wherever it is given.
    pub fn absent<X: Drop>(&mut self, name: &str) -> Result<Option<X>, Fault>
        ensures { Gives (absent name.now (rest self.old)) result (rest self.new) }
    {
        let Some(_) = self.take(name) else {
            return Ok(None);
        };
        Err(self.fault(name))
    }

    /// The value, where no member is left; else the least one left fails, in the order of their names' bytes.
    pub fn end<X: Drop>(&self, value: X) -> Result<X, Fault>
        ensures { Gives (ends value (rest self.now)) result (rest self.now) }
    {
        match self.members.first_key_value() {
            None => Ok(value),
            Some((name, _)) => Err(self.fault(name.as_str())),
        }
    }

    /// The fault of the member of that name, for a reader that takes a member and refuses its value.
    pub fn fault(&self, name: &str) -> Fault
        ensures { IsFaultOf name.now result }
    {
        match String::from_str(self.alloc, name) {
            Ok(name) => Fault::Member(Text::of(name)),
            Err(_) => Fault::OutOfMemory,
        }
    }

    /// What all members together stand for; the first that fails, where one does or one is left.
    pub fn whole<O: Object>(mut self) -> Result<O::Value, Fault>
        ensures { Completes (complete O.reader (rest self)) result }
    {
        let object = O::read(&mut self)?;
        self.end(object)
    }
}
