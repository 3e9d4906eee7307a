ghost use Rattle.std.specs.Prelude.{◌≡◌, ◌<◌, IfOk};
ghost use Rattle.bai2_read.specs.Details.{bank_reference, customer_reference, detail_amount, full_count};
ghost use Rattle.bai2_read.specs.Details.{funds_part, is_type, line_of, own_text};

use crate::amounts::{amount, line_amount};
use crate::fields::{after_fields, field, field_text, first_field, text_after};
use crate::funds::{further, value_day};
use crate::texts::copy_of;
use book_commodity::{Day, Many, OutOfMemory, Text};
use book_statement::{StatementLine, add_piece, has_digits, number};
use std::alloc::Global;

/// The fields of a detail from its funds type on.
pub fn funds_part(body: &[u8]) -> &[u8]
    ensures { result.now ≡ funds_part body.now }
{
    after_fields(body, 2)
}

/// How many fields a detail has up to its customer reference.
#[tactic(auto, unfolding(crate::specs::Details::full_count))]
pub fn full_count(body: &[u8]) -> usize
    ensures { result ≡ full_count body.now }
{
    5 + further(funds_part(body))
}

/// What stands behind the funds type of a detail with so many fields up to its customer reference: its bank reference,
/// its customer reference, and its text.
#[tactic(auto, unfolding(crate::specs::Details::bank_reference, crate::specs::Details::full_count, crate::specs::Fields::field))]
fn last_parts(body: &str, full: usize) -> (&str, &str, &str)
    requires { full ≡ full_count body.now }
    ensures bank { result.0.now ≡ bank_reference body.now }
    ensures customer { result.1.now ≡ customer_reference body.now }
    ensures text { result.2.now ≡ own_text body.now }
{
    let from_bank = text_after(body, full - 2);
    let from_customer = text_after(from_bank, 0);
    let text = text_after(from_customer, 0);
    (first_field(from_bank), first_field(from_customer), text)
}

/// Whether the text is a detail type: three digits.
pub fn is_type(text: &[u8]) -> bool
    ensures { result ≡ is_type text.now }
{
    has_digits(text, 3, 3)
}

/// The amount of the line that a detail gives; `None` where its type gives no line.
#[tactic(auto, unfolding(crate::specs::Details::detail_amount))]
pub fn detail_amount(body: &[u8]) -> Option<i64>
    ensures { result ≡ detail_amount body.now }
{
    let detail_type = field(body, 0);
    if !is_type(detail_type) {
        return None;
    }
    line_amount(number(detail_type), amount(field(body, 1)))
}

/// The line of a statement on this day that a detail of this amount gives; `more` is the text of its continuations.
#[tactic(auto, unfolding(crate::specs::Details::line_of))]
pub fn line_of(
    alloc: Global,
    day: Day,
    body: &str,
    more: &str,
    given: i64,
) -> Result<StatementLine, OutOfMemory>
    ensures { IfOk result (λ line. line ≡ line_of day body.now more.now given) }
{
    let (bank, customer, own) = last_parts(body, full_count(body.as_bytes()));
    let mut text = copy_of(alloc, own)?;
    add_piece(alloc, &mut text, more)?;
    Ok(StatementLine {
        day,
        value_day: value_day(day, funds_part(body.as_bytes())),
        amount: given,
        kind: copy_of(alloc, field_text(body, 0))?,
        ref_own: copy_of(alloc, customer)?,
        ref_bank: copy_of(alloc, bank)?,
        text,
        category: Text::new(alloc),
        parts: Many::new(alloc),
    })
}
