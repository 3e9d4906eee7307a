ghost use Rattle.std.specs.Prelude.{codes};
ghost use Rattle.book_json.specs.Members.{needed};
ghost use Rattle.book_json.specs.Reads.{rest, Gives};
ghost use Rattle.book_wire.specs.Formats.{format, format_form, without_currency};

use book_command::Format;
use book_json::{Fault, Reading};

/// A word for the format of a statement file.
#[derive(Clone, Copy)]
pub(crate) enum FormatWord {
    Mt940,
    Bai2,
    QifMonthFirst,
    QifDayFirst,
}

/// The words for the formats of statement files.
const FORMATS: [(&str, FormatWord); 4] = [
    ("mt940", FormatWord::Mt940),
    ("bai2", FormatWord::Bai2),
    ("qif-md", FormatWord::QifMonthFirst),
    ("qif-dm", FormatWord::QifDayFirst),
];

/// The word for the format of a file.
#[tactic(auto, unfolding(crate::specs::Formats::format_form))]
pub(crate) fn named_format(members: &mut Reading) -> Result<FormatWord, Fault>
    ensures { Gives (needed format_form (codes "format") (rest members.old)) result (rest members.new) }
{
    members.word("format", &FORMATS)
}

impl FormatWord {
    /// The format that the word stands for, with the currency where it needs one.
    pub(crate) fn format(self, members: &mut Reading) -> Result<Format, Fault>
        ensures { Gives (format self (rest members.old)) result (rest members.new) }
    {
        match self {
            FormatWord::Mt940 => without_currency(members, Format::Mt940),
            FormatWord::Bai2 => without_currency(members, Format::Bai2),
            FormatWord::QifMonthFirst => {
                let currency = members.needed("currency")?;
                Ok(Format::QifMonthFirst { currency })
            }
            FormatWord::QifDayFirst => {
                let currency = members.needed("currency")?;
                Ok(Format::QifDayFirst { currency })
            }
        }
    }
}

/// A format whose files name their currency themselves, so that none may be given.
fn without_currency(members: &mut Reading, format: Format) -> Result<Format, Fault>
    ensures { Gives (without_currency format (rest members.old)) result (rest members.new) }
{
    members.absent::<u64>("currency")?;
    Ok(format)
}
