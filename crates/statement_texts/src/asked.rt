ghost use Rattle.std.specs.Prelude.{◌≡◌, IfSome};
ghost use Rattle.statement_texts.specs.Words.{HasFraction};

use qif_read::DateOrder;

/// A format; for QIF with the order of its dates and the code and the fraction of its currency.
#[derive(Debug, Drop)]
pub enum Format<'a> {
    Mt940,
    Bai2,
    Qif(DateOrder, &'a str, u64),
}

/// What the words ask for: a format, and counts alone or everything.
#[derive(Debug, Drop)]
pub struct Asked<'a> {
    pub format: Format<'a>,
    pub counts: bool,
}

/// What the words ask for; `None` where they ask nothing. A fraction is from 1 to 10^9.
pub fn read_words(words: &[String]) -> Option<Asked<'_>>
    ensures { IfSome result (λ asked. HasFraction asked.format) }
{
    let (words, counts) = without_counts(words);
    let format = match words {
        [format] => plain_format(format.as_str())?,
        [format, code, fraction] => {
            let order = date_order(format.as_str())?;
            let fraction = fraction.parse::<u64>().ok()?;
            if fraction < 1 || fraction > 1_000_000_000 {
                return None;
            }
            Format::Qif(order, code.as_str(), fraction)
        }
        _ => return None,
    };
    Some(Asked { format, counts })
}

/// The words without a last word `counts`, and whether it stands there.
fn without_counts(words: &[String]) -> (&[String], bool) {
    match words {
        [front @ .., last] if last.as_str() == "counts" => (front, true),
        _ => (words, false),
    }
}

/// A format that says all that is needed.
fn plain_format(word: &str) -> Option<Format<'_>>
    ensures { IfSome result (λ format. HasFraction format) }
{
    match word {
        "mt940" => Some(Format::Mt940),
        "bai2" => Some(Format::Bai2),
        _ => None,
    }
}

/// The order of the dates of a QIF file.
fn date_order(word: &str) -> Option<DateOrder> {
    match word {
        "qif-md" => Some(DateOrder::MonthDay),
        "qif-dm" => Some(DateOrder::DayMonth),
        _ => None,
    }
}
