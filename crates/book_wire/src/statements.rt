ghost use Rattle.book_json.specs.Reads.{rest, Gives};
ghost use Rattle.book_wire.specs.Statements.{bind, import, line_add, line_dismiss, line_match, line_reopen, lines};
ghost use Rattle.book_wire.specs.Statements.{listed_statements, match_auto, other};

use crate::formats::named_format;
use book_command::{GivenOther, Update, What};
use book_json::{Fault, Object, Reading};
use book_statement::Binding;

pub(crate) fn bind(members: &mut Reading) -> Result<What, Fault>
    ensures { Gives (bind (rest members.old)) result (rest members.new) }
{
    let text = members.needed("text")?;
    let account = members.needed("account")?;
    let binding = Binding { text, account };
    Ok(What::Update(Update::Bind { binding }))
}

pub(crate) fn import(members: &mut Reading) -> Result<What, Fault>
    ensures { Gives (import (rest members.old)) result (rest members.new) }
{
    let word = named_format(members)?;
    let text = members.needed("text")?;
    let account = members.optional("account")?;
    let format = word.format(members)?;
    Ok(What::Update(Update::Import {
        format,
        text,
        account,
    }))
}

pub(crate) fn line_match(members: &mut Reading) -> Result<What, Fault>
    ensures { Gives (line_match (rest members.old)) result (rest members.new) }
{
    let line = members.needed("line")?;
    let split = members.needed("split")?;
    Ok(What::Update(Update::LineMatch { line, split }))
}

pub(crate) fn line_add(members: &mut Reading) -> Result<What, Fault>
    ensures { Gives (line_add (rest members.old)) result (rest members.new) }
{
    let line = members.needed("line")?;
    let others = members.objects::<Other>("others")?;
    let description = members.optional("description")?;
    Ok(What::Update(Update::LineAdd {
        line,
        others,
        description,
    }))
}

/// The members of what stands against a line.
struct Other;

impl Object for Other {
    type Value = GivenOther;

    ghost reader = { other };

    fn read(members: &mut Reading) -> Result<GivenOther, Fault> {
        given_other(members)
    }
}

/// What stands against a line.
#[tactic(auto, unfolding(crate::specs::Statements::other))]
fn given_other(members: &mut Reading) -> Result<GivenOther, Fault>
    ensures { Gives (other (rest members.old)) result (rest members.new) }
{
    let account = members.needed("account")?;
    let value = members.needed("value")?;
    let memo = members.text("memo")?;
    Ok(GivenOther {
        account,
        value,
        memo,
    })
}

pub(crate) fn line_dismiss(members: &mut Reading) -> Result<What, Fault>
    ensures { Gives (line_dismiss (rest members.old)) result (rest members.new) }
{
    let line = members.needed("line")?;
    Ok(What::Update(Update::LineDismiss { line }))
}

pub(crate) fn line_reopen(members: &mut Reading) -> Result<What, Fault>
    ensures { Gives (line_reopen (rest members.old)) result (rest members.new) }
{
    let line = members.needed("line")?;
    Ok(What::Update(Update::LineReopen { line }))
}

pub(crate) fn match_auto(members: &mut Reading) -> Result<What, Fault>
    ensures { Gives (match_auto (rest members.old)) result (rest members.new) }
{
    let account = members.needed("account")?;
    let window = members.needed("window")?;
    Ok(What::Update(Update::MatchAuto { account, window }))
}

pub(crate) fn lines(members: &mut Reading) -> Result<What, Fault>
    ensures { Gives (lines (rest members.old)) result (rest members.new) }
{
    let account = members.needed("account")?;
    Ok(What::Lines { account })
}

pub(crate) fn listed_statements(members: &mut Reading) -> Result<What, Fault>
    ensures { Gives (listed_statements (rest members.old)) result (rest members.new) }
{
    let account = members.needed("account")?;
    Ok(What::Statements { account })
}
