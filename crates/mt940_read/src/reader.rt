ghost use Rattle.std.specs.Prelude.{◌≡◌, ◌+◌, ◌<◌, ◌^◌, ℕ, List, [], ◌∷◌, None, Some, OnOk, IsTrue, false};
ghost use Rattle.book_commodity.specs.declared.commodity.Commodity.{Commodity};
ghost use Rattle.book_statement.specs.Currencies.{HaveFractions};

use crate::answer::{answer, fault};
use crate::checks::check_field;
use crate::kept::page_of;
use crate::kinds::{field_text, kind_of};
use crate::lines::Lines;
use crate::message::{Message, ends_in_line};
use crate::page::Page;
use crate::statements::Statements;
use crate::tag::{Kind, Tag};
use book_commodity::{Commodities, Many, OutOfMemory};
use book_statement::{Bad, ReadError, Statement};
use std::alloc::Global;
use std::mem;

/// What is kept of the lines that were read: the statements, the message before, and the values of the message that is
/// read. `text_goes_on` says whether further lines belong to the text of the last line.
#[derive(Drop)]
pub struct Reader {
    pub done: Statements,
    pub page: Option<Page>,
    pub message: Message,
    pub text_goes_on: bool,
}

impl Reader {
    ghost use Rattle.mt940_read.specs.Pages.{joins_page, page_of, with_message};
    ghost use Rattle.mt940_read.specs.FieldChecks.{amount_in, field_checks};
    ghost use Rattle.book_statement.specs.Checks.{Gives, Tells};
    ghost use Rattle.mt940_read.specs.Kinds.{kind_of, has_tag, field_text};
    ghost use Rattle.mt940_read.specs.declared.tag.Kind.TheVariants.{Field, More};
    ghost use Rattle.mt940_read.specs.Steps.{
      Steps,
      begun,
      end_checks,
      ended,
      finished,
      line_checks_of,
      line_of_fault,
      next,
      past_kept,
    };
    ghost use Rattle.mt940_read.specs.Values.{values};

    /// The reader of no lines.
    pub fn new(alloc: Global) -> Reader
        ensures { (known : List (ℕ × Commodity))
            → result ≡ record { done = []; page = None; message = values known []; text_goes_on = false } }
    {
        Reader {
            done: Statements::new(alloc),
            page: None,
            message: Message::new(alloc),
            text_goes_on: false,
        }
    }

    /// Takes a line, with how many lines stand before it.
    pub fn take(
        &mut self,
        alloc: Global,
        known: &Commodities,
        before: u64,
        line: &str,
    ) -> Result<(), ReadError>
        requires fractions { HaveFractions known.now.entries }
        requires few { before + 1 < 2 ^ 64 }
        ensures { Steps (line_of_fault (kind_of line.now) before)
            (line_checks_of known.now.entries (kind_of line.now) line.now self.old)
            (next known.now.entries (kind_of line.now) line.now self.old) result self.new }
    {
        match kind_of(line.as_bytes()) {
            Kind::Begins => self.begin(alloc, before),
            Kind::Field(tag) => self.field(alloc, known, before, tag, line),
            Kind::Passed => {
                self.text_goes_on = false;
                Ok(())
            }
            Kind::Ends => self.end(alloc, before),
            Kind::More => self.more(alloc, line),
        }
    }

    /// Ends a message, if one has begun, and begins another.
    fn begin(&mut self, alloc: Global, before: u64) -> Result<(), ReadError>
        ensures { (known : List (ℕ × Commodity)) (line : List ℕ)
            → Steps before (end_checks self.old) (begun (ended known self.old)) result self.new }
    {
        match self.end(alloc, before) {
            Ok(()) => {
                self.message.last = Some(Tag::Reference);
                Ok(())
            }
            Err(error) => Err(error),
        }
    }

    /// Takes a field of the message, if one has begun.
    fn field(
        &mut self,
        alloc: Global,
        known: &Commodities,
        before: u64,
        tag: Tag,
        line: &str,
    ) -> Result<(), ReadError>
        requires fractions { HaveFractions known.now.entries }
        requires few { before + 1 < 2 ^ 64 }
        requires tag { IsTrue (has_tag line.now) }
        ensures { Steps (before + 1) (line_checks_of known.now.entries (Field tag) line.now self.old)
            (next known.now.entries (Field tag) line.now self.old) result self.new }
    {
        if self.message.last.is_none() {
            return Ok(());
        }
        let text = field_text(line);
        let amount = match self.check(known, tag, text) {
            Ok(amount) => amount,
            Err(bad) => return Err(fault(before + 1, bad)),
        };
        let last_line = ends_in_line(self.message.last);
        self.message.add(alloc, known, tag, text, amount)?;
        self.text_goes_on = matches!(tag, Tag::Line) || (matches!(tag, Tag::Text) && last_line);
        Ok(())
    }

    /// The checks of a field, and its amount.
    fn check(&self, known: &Commodities, tag: Tag, text: &str) -> Result<i64, Bad>
        requires { HaveFractions known.now.entries }
        ensures { Tells (field_checks known.now.entries (past_kept self.now) self.now.message tag text.now)
            (amount_in known.now.entries self.now.message tag text.now) result }
    {
        let statements = self.done.len() as u64;
        let last_lines = self.done.last_lines() as u64;
        check_field(
            known,
            &self.page,
            statements,
            last_lines,
            &self.message,
            tag,
            text.as_bytes(),
        )
    }

    /// Takes a line that goes on with a field.
    fn more(&mut self, alloc: Global, line: &str) -> Result<(), ReadError>
        ensures { (known : List (ℕ × Commodity)) → Steps 0 [] (next known More line.now self.old) result self.new }
    {
        if self.text_goes_on {
            self.message.lines.add_text(alloc, line)?;
        }
        Ok(())
    }

    /// Ends the message, if one has begun: it has to have its closing balance, else `CutOff` at its last line.
    fn end(&mut self, alloc: Global, last: u64) -> Result<(), ReadError>
        ensures { (known : List (ℕ × Commodity))
            → Steps last (end_checks self.old) (ended known self.old) result self.new }
    {
        if self.message.last.is_none() {
            return Ok(());
        }
        if self.message.closing.is_none() {
            return Err(fault(last, Bad::CutOff));
        }
        let joined = self.message.joins(&self.page);
        let message = mem::replace(&mut self.message, Message::new(alloc));
        self.keep(alloc, joined, message)?;
        self.text_goes_on = false;
        Ok(())
    }

    /// Keeps a message that is whole: as a page of the last statement, or as a statement of its own.
    fn keep(&mut self, alloc: Global, joined: bool, message: Message) -> Result<(), OutOfMemory>
        requires { joined ≡ joins_page self.old.page message.account message.opens_page }
        ensures { OnOk result (self.new ≡ record self.old
            { done = with_message self.old.page message self.old.done; page = Some (page_of message) }) }
    {
        let mut message = message;
        let lines = mem::replace(&mut message.lines, Lines::new(alloc)).into_vec();
        self.done.add(joined, &message, lines)?;
        self.page = Some(page_of(alloc, message));
        Ok(())
    }

    /// Ends the file behind so many lines: the statements, or `NoStatement` at line 0 where there is none.
    pub fn finish(self, alloc: Global, last: u64) -> Result<Many<Statement>, ReadError>
        ensures { (known : List (ℕ × Commodity)) → Gives (finished known last self) result }
    {
        let mut reader = self;
        match reader.end(alloc, last) {
            Ok(()) => answer(reader.done),
            Err(error) => Err(error),
        }
    }
}
