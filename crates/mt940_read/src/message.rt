ghost use Rattle.std.specs.Prelude.{◌≡◌, ◌==◌, ℕ, List, None, Some, [], OnOk, position};
ghost use Rattle.book_commodity.specs.declared.commodity.Commodity.{Commodity};
ghost use Rattle.book_statement.specs.Checks.{first_bad};
ghost use Rattle.book_statement.specs.Currencies.{HaveFractions};
ghost use Rattle.mt940_read.specs.Balances.{balance_currency, balance_day, balance_form};
ghost use Rattle.mt940_read.specs.Entries.{fraction_in};
ghost use Rattle.mt940_read.specs.FieldChecks.{Fits, amount_in};
ghost use Rattle.mt940_read.specs.Pages.{joins_page};
ghost use Rattle.mt940_read.specs.Messages.{number_part};
ghost use Rattle.mt940_read.specs.Values.{after, ends_in_line, values};

use crate::balance::{balance_currency, balance_day};
use crate::checks::{fraction_in, joins_page};
use crate::fraction::Fraction;
use crate::line_field::line;
use crate::lines::Lines;
use crate::page::Page;
use crate::tag::Tag;
use crate::texts::{ascii_text, text_of};
use book_commodity::{Commodities, Day, OutOfMemory, Text};
use book_statement::text_before;
use std::alloc::Global;

/// The values of a message, as far as its fields were read. Amounts are in smallest units of the currency.
#[derive(Drop)]
pub struct Message {
    /// The tag of the last field; `None` outside a message.
    pub last: Option<Tag>,
    pub account: Text,
    pub number: Text,
    pub currency: Text,
    pub fraction: Fraction,
    pub opening: Option<i64>,
    /// Whether it opens by 60M, as a page in the middle of a statement.
    pub opens_page: bool,
    pub closing: Option<i64>,
    /// Whether it closes by 62M, as a page in the middle of a statement.
    pub closes_page: bool,
    /// The day of the closing balance.
    pub day: Day,
    pub lines: Lines,
}

impl Message {
    /// The values of a message without fields.
    pub fn new(alloc: Global) -> Message
        ensures { (known : List (ℕ × Commodity)) → result ≡ values known [] }
    {
        let Some(day) = Day::of_number(0) else {
            unreachable!()
        };
        Message {
            last: None,
            account: Text::new(alloc),
            number: Text::new(alloc),
            currency: Text::new(alloc),
            fraction: Fraction::of(1),
            opening: None,
            opens_page: false,
            closing: None,
            closes_page: false,
            day,
            lines: Lines::new(alloc),
        }
    }

    /// Whether it belongs to the statement of the message before it.
    pub fn joins(&self, page: &Option<Page>) -> bool
        ensures { result ≡ joins_page page.now self.now.account self.now.opens_page }
    {
        joins_page(page, self.account.as_str().as_bytes(), self.opens_page)
    }

    /// Adds a field whose checks hold, with its amount.
    pub fn add(
        &mut self,
        alloc: Global,
        known: &Commodities,
        tag: Tag,
        text: &str,
        amount: i64,
    ) -> Result<(), OutOfMemory>
        requires fractions { HaveFractions known.now.entries }
        requires fits { Fits self.old tag text.now }
        requires amount { amount ≡ amount_in known.now.entries self.old tag text.now }
        ensures { OnOk result (self.new ≡ after known.now.entries self.old tag text.now) }
    {
        match tag {
            Tag::Reference | Tag::Related | Tag::Available | Tag::Forward => {}
            Tag::Account => self.account = text_of(alloc, text)?,
            Tag::Number => self.number = text_of(alloc, number_part(text))?,
            Tag::Opening { goes_on } => self.open(alloc, known, goes_on, text, amount)?,
            Tag::Line => {
                let line = line(alloc, text, amount)?;
                self.lines.push(line)?;
            }
            Tag::Text => {
                if ends_in_line(self.last) {
                    self.lines.add_text(alloc, text)?;
                }
            }
            Tag::Closing { goes_on } => self.close(goes_on, text, amount),
        }
        self.last = Some(tag);
        Ok(())
    }

    /// Takes the opening balance.
    fn open(
        &mut self,
        alloc: Global,
        known: &Commodities,
        goes_on: bool,
        text: &str,
        amount: i64,
    ) -> Result<(), OutOfMemory>
        requires fractions { HaveFractions known.now.entries }
        requires fits { first_bad (balance_form text.now) ≡ None }
        ensures { OnOk result (self.new ≡ record self.old {
          currency = balance_currency text.now;
          fraction = fraction_in known.now.entries
              (balance_currency text.now);
          opening = Some amount;
          opens_page = goes_on;
        }) }
    {
        let currency = balance_currency(text.as_bytes());
        self.fraction = fraction_in(known, currency);
        self.currency = ascii_text(alloc, currency)?;
        self.opening = Some(amount);
        self.opens_page = goes_on;
        Ok(())
    }

    /// Takes the closing balance.
    fn close(&mut self, goes_on: bool, text: &str, amount: i64)
        requires { first_bad (balance_form text.now) ≡ None }
        ensures { self.new ≡ record self.old
            { closing = Some amount; closes_page = goes_on; day = balance_day text.now } }
    {
        self.day = balance_day(text.as_bytes(), self.day);
        self.closing = Some(amount);
        self.closes_page = goes_on;
    }
}

/// Whether the last field is a 61.
pub fn ends_in_line(last: Option<Tag>) -> bool
    ensures { result ≡ ends_in_line last }
{
    matches!(last, Some(Tag::Line))
}

/// The number of a statement: what stands before the first slash.
#[tactic(auto, unfolding(crate::specs::Messages::number_part))]
fn number_part(text: &str) -> &str
    ensures { result.now ≡ number_part text.now }
{
    match slash(text.as_bytes()) {
        Some(place) => text_before(text, place),
        None => text,
    }
}

/// The place of the first slash.
fn slash(text: &[u8]) -> Option<usize>
    ensures { result ≡ position (λ byte. byte == 47) text.now }
{
    text.iter().position(|byte| *byte == b'/')
}
