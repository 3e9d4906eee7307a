ghost use Rattle.std.specs.Prelude.{◌≡◌};
ghost use Rattle.mt940_read.specs.Order.{may_follow};

use crate::tag::Tag;

/// Which field may stand behind the last one, in a message that has its closing balance or not.
pub fn may_follow(last: Option<Tag>, closed: bool, tag: Tag) -> bool
    ensures { result ≡ may_follow last closed tag }
{
    let Some(last) = last else {
        return true;
    };
    match last {
        Tag::Reference => matches!(tag, Tag::Related | Tag::Account),
        Tag::Related => matches!(tag, Tag::Account),
        Tag::Account => matches!(tag, Tag::Number),
        Tag::Number => matches!(tag, Tag::Opening { .. }),
        Tag::Opening { .. } => matches!(tag, Tag::Line | Tag::Closing { .. }),
        Tag::Line => matches!(tag, Tag::Line | Tag::Text | Tag::Closing { .. }),
        Tag::Text => !closed && matches!(tag, Tag::Line | Tag::Closing { .. }),
        Tag::Closing { .. } => matches!(tag, Tag::Available | Tag::Forward | Tag::Text),
        Tag::Available => matches!(tag, Tag::Forward | Tag::Text),
        Tag::Forward => matches!(tag, Tag::Forward | Tag::Text),
    }
}
