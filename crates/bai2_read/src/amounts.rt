ghost use Rattle.std.specs.Prelude.{◌≡◌, ◌<◌, ◌≤◌, ◌^◌, IsTrue, ℤ, pos, negsuc, ◌≤ℤ◌, length};
ghost use Rattle.book_statement.specs.Numbers.{number};
ghost use Rattle.bai2_read.specs.Fields.{count, is_count};
ghost use Rattle.bai2_read.specs.Amounts.{IsSmall, amount, is_amount, is_credit, is_debit, is_given, is_signed};
ghost use Rattle.bai2_read.specs.Amounts.{is_total, line_amount, signed_number, total, without_sign};

use book_statement::{LARGEST_AMOUNT, has_digits, number};

/// The text without a plus or a minus in front.
fn without_sign(text: &[u8]) -> &[u8]
    ensures { result.now ≡ without_sign text.now }
{
    if !text.is_empty() && (text[0] == b'+' || text[0] == b'-') {
        return &text[1..];
    }
    text
}

/// Whether the text is an optional sign and 1 to so many digits.
fn is_signed(text: &[u8], most: usize) -> bool
    ensures { result ≡ is_signed most text.now }
{
    has_digits(without_sign(text), 1, most)
}

/// The number that a sign and at most 18 digits spell.
fn signed_number(text: &[u8]) -> i64
    requires { IsTrue (is_signed 18 text.now) }
    ensures { result ≡ signed_number text.now }
{
    let size = number(without_sign(text)) as i64;
    if text[0] == b'-' { -size } else { size }
}

/// Whether the text is an optional sign and 1 to 15 digits, and at most 10^12 in size.
fn is_given(text: &[u8]) -> bool
    ensures { result ≡ is_given text.now }
{
    is_signed(text, 15) && number(without_sign(text)) <= LARGEST_AMOUNT
}

/// Whether the text is an amount: empty, or an optional sign and 1 to 15 digits, and at most 10^12 in size.
pub fn is_amount(text: &[u8]) -> bool
    ensures { result ≡ is_amount text.now }
{
    text.is_empty() || is_given(text)
}

/// The amount in smallest units that a text spells; 0 where it is empty or none.
#[tactic(auto, unfolding(crate::specs::Amounts::amount))]
pub fn amount(text: &[u8]) -> i64
    ensures value { result ≡ amount text.now }
    ensures size { IsSmall result }
{
    if is_given(text) {
        signed_number(text)
    } else {
        0
    }
}

/// Whether the text is a control total: an optional sign and 1 to 18 digits.
pub fn is_total(text: &[u8]) -> bool
    ensures { result ≡ is_total text.now }
{
    is_signed(text, 18)
}

/// The control total that a text spells; 0 where it is none.
#[tactic(auto, unfolding(crate::specs::Amounts::total))]
pub fn total(text: &[u8]) -> i64
    ensures { result ≡ total text.now }
{
    if is_total(text) {
        signed_number(text)
    } else {
        0
    }
}

/// Whether details of this type are credits.
fn is_credit(detail_type: u64) -> bool
    ensures { result ≡ is_credit detail_type }
{
    (100 <= detail_type && detail_type < 400) || (920 <= detail_type && detail_type < 960)
}

/// Whether details of this type are debits.
fn is_debit(detail_type: u64) -> bool
    ensures { result ≡ is_debit detail_type }
{
    (400 <= detail_type && detail_type < 700) || (960 <= detail_type && detail_type < 1000)
}

/// The amount of a line with this detail type: a credit comes into the account, a debit leaves it; `None` for other
/// types.
#[tactic(auto, unfolding(crate::specs::Amounts::line_amount))]
pub fn line_amount(detail_type: u64, given: i64) -> Option<i64>
    requires { IsSmall given }
    ensures { result ≡ line_amount detail_type given }
{
    if is_credit(detail_type) {
        return Some(given);
    }
    if is_debit(detail_type) {
        return Some(-given);
    }
    None
}

/// Whether the text is a count: 1 to 9 digits.
pub fn is_count(text: &[u8]) -> bool
    ensures { result ≡ is_count text.now }
{
    has_digits(text, 1, 9)
}

/// The number that a count spells, and 0 where it is none.
#[tactic(auto, unfolding(crate::specs::Fields::count))]
pub fn count(text: &[u8]) -> u64
    ensures value { result ≡ count text.now }
    ensures bound { result < 1_000_000_000 }
{
    if !is_count(text) {
        return 0;
    }
    number(text)
}
