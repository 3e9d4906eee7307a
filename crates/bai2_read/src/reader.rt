use crate::checks::{fault_at, fault_at_end};
use crate::context::Context;
use crate::kind::Kind;
use crate::lines::record_of;
use crate::pending::Pending;
use book_commodity::{Commodities, Many};
use book_statement::{ReadError, Statement};
use std::alloc::Global;

/// A file that is being read: what its records say, and the last record, whose continuations may still come.
#[derive(Drop)]
pub struct Reader {
    pub context: Context,
    pub pending: Option<Pending>,
}

impl Reader {
    ghost use Rattle.std.specs.Prelude.{List, [], Option, Some, None};
    ghost use Rattle.book_statement.specs.Checks.{Gives};
    ghost use Rattle.bai2_read.specs.Kept.{Keeps, Leads, done_at, last_at, with_last};
    ghost use Rattle.bai2_read.specs.Kinds.{body_of, kind_of};
    ghost use Rattle.bai2_read.specs.Reading.{Known, result_of};
    ghost use Rattle.bai2_read.specs.Records.{Record, whole};
    ghost use Rattle.bai2_read.specs.Summaries.{BeginsField};
    ghost use Rattle.bai2_read.specs.declared.kind.Kind.TheVariants.{Continuation};

    /// Before the first line.
    pub fn new(alloc: Global) -> Reader
        ensures { (entries : Known) → Keeps entries result [] None }
    {
        Reader {
            context: Context::new(alloc),
            pending: None,
        }
    }

    /// Takes the line with this number. The fault is that of a record that the line shows to be complete.
    pub fn take(
        &mut self,
        alloc: Global,
        known: &Commodities,
        number: u64,
        line: &str,
    ) -> Result<(), ReadError>
        ensures { (done : List Record) (last : Option Record) → Keeps known.now.entries self.old done last
            → Leads known.now.entries (done_at (kind_of line.now) done last)
            (last_at number (kind_of line.now) (body_of line.now) last) result self.new }
    {
        let (kind, body) = record_of(line);
        match kind {
            Kind::Blank => Ok(()),
            Kind::Continuation => self.go_on(alloc, known, number, body),
            _ => self.begin(alloc, known, number, kind, body),
        }
    }

    /// Takes a continuation: it belongs to the last record, or it is a record by itself.
    fn go_on(
        &mut self,
        alloc: Global,
        known: &Commodities,
        number: u64,
        body: &str,
    ) -> Result<(), ReadError>
        requires { BeginsField body.now }
        ensures { (done : List Record) (last : Option Record) → Keeps known.now.entries self.old done last
            → Leads known.now.entries (done_at Continuation done last)
            (last_at number Continuation body.now last) result self.new }
    {
        let goes_on = match &self.pending {
            Some(record) => record.may_go_on(),
            None => false,
        };
        if !goes_on {
            return self.begin(alloc, known, number, Kind::Continuation, body);
        }
        let Some(record) = self.pending.take() else {
            unreachable!()
        };
        let Ok(record) = record.with_more(alloc, body) else {
            return Err(ReadError::OutOfMemory);
        };
        self.pending = Some(record);
        Ok(())
    }

    /// Begins a record; the one before it is complete.
    fn begin(
        &mut self,
        alloc: Global,
        known: &Commodities,
        number: u64,
        kind: Kind,
        body: &str,
    ) -> Result<(), ReadError>
        ensures { (done : List Record) (last : Option Record) → Keeps known.now.entries self.old done last
            → Leads known.now.entries (with_last done last) (Some (whole number kind body.now [])) result self.new }
    {
        self.settle(alloc, known)?;
        let Ok(record) = Pending::begin(alloc, number, kind, body) else {
            return Err(ReadError::OutOfMemory);
        };
        self.pending = Some(record);
        Ok(())
    }

    /// Checks the last record and adds what it says.
    fn settle(&mut self, alloc: Global, known: &Commodities) -> Result<(), ReadError>
        ensures { (done : List Record) (last : Option Record) → Keeps known.now.entries self.old done last
            → Leads known.now.entries (with_last done last) None result self.new }
    {
        if let Some(record) = self.pending.take() {
            if let Some(fault) = fault_at(known, &self.context, &record) {
                return Err(ReadError::Fault(fault));
            }
            if let Err(_) = self.context.keep(alloc, record) {
                return Err(ReadError::OutOfMemory);
            }
        }
        Ok(())
    }

    /// The statements of a file that ends behind so many lines.
    pub fn end(
        mut self,
        alloc: Global,
        known: &Commodities,
        lines: u64,
    ) -> Result<Many<Statement>, ReadError>
        ensures { (done : List Record) (last : Option Record) → Keeps known.now.entries self done last
            → Gives (result_of known.now.entries lines (with_last done last)) result }
    {
        self.settle(alloc, known)?;
        if let Some(fault) = fault_at_end(lines, self.context.place) {
            return Err(ReadError::Fault(fault));
        }
        let Reader { context, .. } = self;
        let Context { statements, .. } = context;
        Ok(statements)
    }
}
