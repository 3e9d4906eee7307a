ghost use Rattle.std.specs.Prelude.{◌≡◌, ◌^◌, nat_lt, if◌then◌else◌, Some, None};
ghost use Rattle.std.specs.Char.{is_ascii_digit};
ghost use Rattle.std.specs.List.{list_all};
ghost use Rattle.book_numerals.specs.Numerals.{begins_with_zero, has_digits, has_no_leading_zero};
ghost use Rattle.book_numerals.specs.Numerals.{is_numeral, number_of};

/// The numbers that a numeral may spell are below 2^62.
const NUMBER_LIMIT: u64 = 1 << 62;

/// Whether a word begins with the digit zero.
fn begins_with_zero(word: &str) -> bool
    ensures { result ≡ begins_with_zero word.now }
{
    match word.as_bytes().first() {
        None => false,
        Some(byte) => *byte == b'0',
    }
}

/// Whether a word has no zero before another digit.
fn has_no_leading_zero(word: &str) -> bool
    ensures { result ≡ has_no_leading_zero word.now }
{
    !begins_with_zero(word) || word.len() == 1
}

/// Whether each byte of a word is a decimal digit.
fn are_digits(word: &str) -> bool
    ensures { result ≡ list_all is_ascii_digit word.now }
{
    word.as_bytes().iter().all(|byte| byte.is_ascii_digit())
}

/// Whether a word has decimal digits alone, at least one.
fn has_digits(word: &str) -> bool
    ensures { result ≡ has_digits word.now }
{
    !word.is_empty() && are_digits(word)
}

/// Whether a word is a numeral: decimal digits alone, at least one, without leading zeros.
fn is_numeral(word: &str) -> bool
    ensures { result ≡ is_numeral word.now }
{
    has_digits(word) && has_no_leading_zero(word)
}

/// The number, where it is below 2^62.
fn below_limit(number: u64) -> Option<u64>
    ensures { result ≡ (if nat_lt number (2 ^ 62) then Some number else None) }
{
    if number < NUMBER_LIMIT {
        Some(number)
    } else {
        None
    }
}

/// The number that a numeral spells, where it is below 2^62; `None` for other words.
pub fn number_of(word: &str) -> Option<u64>
    ensures { result ≡ number_of word.now }
{
    if !is_numeral(word) {
        return None;
    }
    match word.parse::<u64>() {
        Ok(number) => below_limit(number),
        Err(_) => None,
    }
}
