use crate::Form;
use crate::keep::{fault, in_memory};
use crate::kind::{Code, LineKind, Topic};
use crate::kind_of::{behind_code, kind_of};
use crate::line::into_text;
use crate::said::Said;
use crate::section::Section;
use book_commodity::{Day, Many, OutOfMemory, Text};
use book_statement::{Bad, MAX_LINES, MAX_STATEMENTS, ReadError, Statement, StatementFault};
use std::alloc::Global;
use std::mem;

/// What is kept of the lines so far: the statements of the lists before the last header, what that header began, the
/// name that a list of accounts gives, what the entries of a register give, whether an entry has begun and what it
/// says, and a fault of a list of accounts that waits for the file to have a statement.
#[derive(Drop)]
pub struct Reader {
    done: Many<Statement>,
    topic: Topic,
    name: Text,
    section: Section,
    started: bool,
    said: Said,
    pending: Option<StatementFault>,
}

impl Reader {
    ghost use Rattle.std.specs.Prelude.{◌≡◌, ◌+◌, ◌<◌, ◌^◌, true, false, None, Some, IfErr, IfOk, OnOk};
    ghost use Rattle.book_statement.specs.Checks.{Gives, first_bad};
    ghost use Rattle.book_statement.specs.Currencies.{IsFraction};
    ghost use Rattle.qif_read.specs.Kept.{total_said};
    ghost use Rattle.qif_read.specs.Kinds.{kind_of};
    ghost use Rattle.qif_read.specs.Qif.{answer_of};
    ghost use Rattle.qif_read.specs.Steps.{Takes, account_end_fault, after, answer_after, checks_at_end, end_fault};
    ghost use Rattle.qif_read.specs.Steps.{entry_fault, fault_of, field_fault, fresh, with_account, with_end};
    ghost use Rattle.qif_read.specs.Steps.{with_field, with_list, with_transaction};

    /// The reader before the first line.
    pub fn new(alloc: Global) -> Reader
        ensures { result ≡ fresh }
    {
        Reader {
            done: Many::new(alloc),
            topic: Topic::Passed,
            name: Text::new(alloc),
            section: Section::new(alloc, Text::new(alloc)),
            started: false,
            said: Said::nothing(alloc),
            pending: None,
        }
    }

    /// Takes a line, before which so many stand.
    pub fn take(
        &mut self,
        alloc: Global,
        form: &Form,
        before: u64,
        line: &str,
    ) -> Result<(), ReadError>
        requires count { before + 1 < 2 ^ 64 }
        requires fraction { IsFraction form.now.fraction }
        ensures { Takes (fault_of form.now before line.now (kind_of line.now) self.old)
            (after form.now before line.now (kind_of line.now) self.old) self.new result }
    {
        match kind_of(line) {
            LineKind::Header(topic) => self.take_header(alloc, form, topic, before),
            LineKind::Switch => self.end_entry(alloc, false, before),
            LineKind::End => self.end_entry(alloc, true, before + 1),
            LineKind::Empty => Ok(()),
            LineKind::Field(code) => {
                self.take_field(alloc, form, before + 1, code, behind_code(line))
            }
        }
    }

    /// Takes a header that begins a list.
    fn take_header(
        &mut self,
        alloc: Global,
        form: &Form,
        topic: Topic,
        before: u64,
    ) -> Result<(), ReadError>
        ensures { Takes (end_fault self.old.topic self.old false before)
            (with_list form.now topic (with_end self.old.topic self.old false before)) self.new result }
    {
        match self.end_entry(alloc, false, before) {
            Ok(()) => in_memory(self.begin_list(alloc, form, topic)),
            Err(error) => Err(error),
        }
    }

    /// Takes a line of an entry.
    fn take_field(
        &mut self,
        alloc: Global,
        form: &Form,
        line: u64,
        code: Code,
        text: &str,
    ) -> Result<(), ReadError>
        requires { IsFraction form.now.fraction }
        ensures { Takes (field_fault self.old.topic form.now self.old line code text.now)
            (with_field self.old.topic form.now self.old code text.now) self.new result }
    {
        match self.topic {
            Topic::Register => {
                if let Some(fault) = self.pending {
                    return Err(ReadError::Fault(fault));
                }
                self.started = true;
                self.said.take(alloc, form, line, code, text)
            }
            Topic::Accounts => {
                self.started = true;
                self.said.take_name(alloc, code, text)
            }
            Topic::Passed => Ok(()),
        }
    }

    /// Ends an entry, where one has begun: at a line `^`, or broken off behind a line.
    fn end_entry(&mut self, alloc: Global, whole: bool, line: u64) -> Result<(), ReadError>
        ensures { Takes (end_fault self.old.topic self.old whole line) (with_end self.old.topic self.old whole line)
            self.new result }
    {
        if !self.started {
            return Ok(());
        }
        match self.topic {
            Topic::Register => self.end_transaction(alloc, whole, line),
            Topic::Accounts => self.end_account(alloc, whole, line),
            Topic::Passed => Ok(()),
        }
    }

    /// Ends an entry of a register.
    fn end_transaction(&mut self, alloc: Global, whole: bool, line: u64) -> Result<(), ReadError>
        ensures { Takes (entry_fault self.old whole line) (with_transaction self.old) self.new result }
    {
        match self.check_end(whole) {
            Ok((day, amount)) => {
                let said = mem::replace(&mut self.said, Said::nothing(alloc));
                self.started = false;
                in_memory(self.section.add(alloc, said, day, amount))
            }
            Err(bad) => Err(fault(line, bad)),
        }
    }

    /// Ends an entry of a list of accounts.
    fn end_account(&mut self, alloc: Global, whole: bool, line: u64) -> Result<(), ReadError>
        ensures { Takes (account_end_fault self.old whole line) (with_account self.old whole line) self.new result }
    {
        let said = mem::replace(&mut self.said, Said::nothing(alloc));
        self.name = into_text(alloc, said.number);
        self.started = false;
        if whole {
            return Ok(());
        }
        let fault = StatementFault {
            line,
            bad: Bad::CutOff,
        };
        if !self.done.is_empty() {
            return Err(ReadError::Fault(fault));
        }
        if self.pending.is_none() {
            self.pending = Some(fault);
        }
        Ok(())
    }

    /// Checks an entry of a register at its end, and gives its day and its amount.
    #[tactic(auto, unfolding(crate::specs::Kept::end_checks))]
    fn check_end(&self, whole: bool) -> Result<(Day, i64), Bad>
        ensures fine { IfOk result (λ _. first_bad (checks_at_end whole self.now) ≡ None) }
        ensures day { IfOk result (λ found. self.now.said.day ≡ Some found.0) }
        ensures amount { IfOk result (λ found. total_said self.now.said ≡ Some found.1) }
        ensures bad { IfErr result (λ bad. first_bad (checks_at_end whole self.now) ≡ Some bad) }
    {
        if !whole {
            return Err(Bad::CutOff);
        }
        let Some(day) = self.said.day else {
            return Err(Bad::FieldForm);
        };
        let Some(amount) = self.said.total() else {
            return Err(Bad::FieldForm);
        };
        if !self.said.splits.have_amounts() {
            return Err(Bad::FieldForm);
        }
        let sum = self.said.splits.sum();
        let said = i128::from(amount);
        if !self.said.splits.is_empty() && sum != said {
            return Err(Bad::SplitSum {
                said,
                reckoned: sum,
            });
        }
        if self.done.len() as u64 >= MAX_STATEMENTS {
            return Err(Bad::TooMany);
        }
        if self.section.lines.len() as u64 >= MAX_LINES {
            return Err(Bad::TooMany);
        }
        Ok((day, amount))
    }

    /// Begins a list.
    fn begin_list(&mut self, alloc: Global, form: &Form, topic: Topic) -> Result<(), OutOfMemory>
        ensures { OnOk result (self.new ≡ with_list form.now topic self.old) }
    {
        let given = mem::replace(&mut self.name, Text::new(alloc));
        let name = match topic {
            Topic::Register => given,
            Topic::Accounts | Topic::Passed => Text::new(alloc),
        };
        let section = mem::replace(&mut self.section, Section::new(alloc, name));
        if let Some(statement) = section.into_statement(alloc, form)? {
            self.done.push(statement)?;
        }
        self.topic = topic;
        Ok(())
    }

    /// The statements of a file of so many lines, once all of them are taken.
    pub fn finish(
        mut self,
        alloc: Global,
        form: &Form,
        count: u64,
    ) -> Result<Many<Statement>, ReadError>
        ensures { Gives (answer_after form.now count self) result }
    {
        match self.end_entry(alloc, false, count) {
            Ok(()) => {
                if self.begin_list(alloc, form, Topic::Passed).is_err() {
                    return Err(ReadError::OutOfMemory);
                }
                self.into_statements()
            }
            Err(error) => Err(error),
        }
    }

    /// The statements; a fault where there is none.
    fn into_statements(self) -> Result<Many<Statement>, ReadError>
        ensures { Gives (answer_of None self.done) result }
    {
        let Reader {
            done,
            topic: _,
            name: _,
            section: _,
            started: _,
            said: _,
            pending: _,
        } = self;
        if done.is_empty() {
            return Err(fault(0, Bad::NoStatement));
        }
        Ok(done)
    }
}
