use crate::split::SplitSaid;
use book_commodity::{Many, OutOfMemory, Text};
use book_statement::Part;
use std::alloc::Global;
use std::marker::Model;

/// The parts of an entry, which contracts see as their list.
#[derive(Drop)]
pub struct Splits {
    items: Vec<SplitSaid>,
}

impl Model for Splits {
    ghost use Rattle.std.specs.Prelude.{List};
    ghost use Rattle.qif_read.specs.declared.split.SplitSaid.{SplitSaid};

    ghost Value = { List SplitSaid };

    ghost view = { λ s. s.items.items };
}

impl Splits {
    ghost use Rattle.std.specs.Prelude.{◌≡◌, [], ◌∷◌, ◌++◌, map, is_some, IfOk, OnOk};
    ghost use Rattle.std.specs.List.{list_all};
    ghost use Rattle.book_statement.specs.Lists.{on_last};
    ghost use Rattle.book_statement.specs.Texts.{is_nothing};
    ghost use Rattle.qif_read.specs.Kept.{part_said, sum_of_splits};
    ghost use Rattle.qif_read.specs.Steps.{begun_split, with_memo, with_amount};

    /// No parts.
    pub fn new(alloc: Global) -> Splits
        ensures { result ≡ [] }
    {
        Splits {
            items: Vec::new(alloc),
        }
    }

    /// Whether there is none.
    pub fn is_empty(&self) -> bool
        ensures { result ≡ is_nothing self.now }
    {
        self.items.is_empty()
    }

    /// Begins a part.
    pub fn begin(&mut self, category: Text) -> Result<(), OutOfMemory>
        ensures { OnOk result (self.new ≡ self.old ++ begun_split category ∷ []) }
    {
        self.items.push(SplitSaid {
            category,
            memo: None,
            amount: None,
        })?;
        Ok(())
    }

    /// Gives the last part a memo, if it has none yet.
    pub fn add_memo(&mut self, alloc: Global, text: &str) -> Result<(), OutOfMemory>
        ensures { OnOk result (self.new ≡ on_last (with_memo text.now) self.old) }
    {
        let Some(split) = self.items.pop() else {
            return Ok(());
        };
        self.items.push(split.with_memo(alloc, text)?)?;
        Ok(())
    }

    /// Gives the last part an amount, if it has none yet.
    pub fn add_amount(&mut self, amount: i64) -> Result<(), OutOfMemory>
        ensures { OnOk result (self.new ≡ on_last (with_amount amount) self.old) }
    {
        let Some(split) = self.items.pop() else {
            return Ok(());
        };
        self.items.push(split.with_amount(amount))?;
        Ok(())
    }

    /// Whether each part has an amount.
    pub fn have_amounts(&self) -> bool
        ensures { result ≡ list_all (λ split. is_some split.amount) self.now }
    {
        self.items.iter().all(|split| split.amount.is_some())
    }

    /// The sum of the amounts, in smallest units.
    pub fn sum(&self) -> i128
        ensures { result ≡ sum_of_splits self.now }
    {
        let mut sum = 0i128;
        for split in &self.items {
            sum += i128::from(split.amount.unwrap_or(0));
        }
        sum
    }

    /// The parts as a line of a statement has them.
    pub fn into_parts(self, alloc: Global) -> Result<Many<Part>, OutOfMemory>
        ensures { IfOk result (λ parts. parts ≡ map part_said self) }
    {
        let mut parts = Vec::new(alloc);
        let Splits { items } = self;
        for split in items {
            parts.push(Part {
                category: split.category,
                memo: split.memo.unwrap_or(Text::new(alloc)),
                amount: split.amount.unwrap_or(0),
            })?;
        }
        Ok(Many::of(parts))
    }
}
