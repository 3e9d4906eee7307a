ghost use Rattle.std.specs.Prelude.{◌≡◌, [], ◌∷◌, ◌++◌, IfOk, OnOk, decimal, map};
ghost use Rattle.book_commodity.specs.Amount.{amount_text};
ghost use Rattle.book_commodity.specs.Day.{day_text};

use crate::layout::day_cell;
use book_commodity::{Day, Many, OutOfMemory, Text, amount_text};
use std::alloc::Global;
use std::marker::Model;

/// A row of a table that is being made, which contracts see as the list of its texts.
#[derive(Drop)]
pub struct Cells {
    alloc: Global,
    texts: Many<Text>,
}

impl Model for Cells {
    ghost use Rattle.std.specs.Prelude.{ℕ, List};

    ghost Value = { List (List ℕ) };

    ghost view = { λ c. c.texts };
}

impl Cells {
    /// The row without texts.
    pub fn new(alloc: Global) -> Cells
        ensures { result ≡ [] }
    {
        Cells {
            alloc,
            texts: Many::new(alloc),
        }
    }

    /// Adds a text.
    pub fn text(&mut self, text: &str) -> Result<(), OutOfMemory>
        ensures { OnOk result (self.new ≡ self.old ++ text.now ∷ []) }
    {
        let text = Text::of(String::from_str(self.alloc, text)?);
        self.texts.push(text)
    }

    /// Adds a number in decimal digits.
    pub fn number(&mut self, number: u64) -> Result<(), OutOfMemory>
        ensures { OnOk result (self.new ≡ self.old ++ decimal number ∷ []) }
    {
        let text = Text::of(number.to_string(self.alloc)?);
        self.texts.push(text)
    }

    /// Adds an amount of a commodity with this fraction.
    pub fn amount(&mut self, amount: i128, fraction: u64) -> Result<(), OutOfMemory>
        ensures { OnOk result (self.new ≡ self.old ++ amount_text amount fraction ∷ []) }
    {
        let text = amount_text(self.alloc, amount, fraction)?;
        self.texts.push(text)
    }

    /// Adds a day.
    pub fn day(&mut self, day: Day) -> Result<(), OutOfMemory>
        ensures { OnOk result (self.new ≡ self.old ++ day_text day ∷ []) }
    {
        let text = day_cell(self.alloc, day)?;
        self.texts.push(text)
    }

    /// The row with these texts.
    pub fn row(self) -> Many<Text>
        ensures { result ≡ self }
    {
        let Cells { alloc: _, texts } = self;
        texts
    }
}

/// The row of these words.
pub fn row_of(alloc: Global, words: &[&str]) -> Result<Many<Text>, OutOfMemory>
    ensures { IfOk result (λ row. row ≡ map (λ word. word.now) words.now) }
{
    let mut cells = Cells::new(alloc);
    for word in words {
        cells.text(word)?;
    }
    Ok(cells.row())
}
