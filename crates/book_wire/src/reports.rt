ghost use Rattle.book_json.specs.Reads.{rest, Gives};
ghost use Rattle.book_wire.specs.Reports.{gains, income, lots, register, sheet, trial};

use book_command::Report;
use book_json::{Fault, Reading};

pub(crate) fn register(members: &mut Reading) -> Result<Report, Fault>
    ensures { Gives (register (rest members.old)) result (rest members.new) }
{
    let account = members.needed("account")?;
    let from = members.optional("from")?;
    let to = members.optional("to")?;
    let csv = members.flag("csv")?;
    Ok(Report::Register {
        account,
        from,
        to,
        csv,
    })
}

pub(crate) fn trial(members: &mut Reading) -> Result<Report, Fault>
    ensures { Gives (trial (rest members.old)) result (rest members.new) }
{
    let day = members.needed("day")?;
    let csv = members.flag("csv")?;
    Ok(Report::Trial { day, csv })
}

pub(crate) fn sheet(members: &mut Reading) -> Result<Report, Fault>
    ensures { Gives (sheet (rest members.old)) result (rest members.new) }
{
    let day = members.needed("day")?;
    let csv = members.flag("csv")?;
    Ok(Report::Sheet { day, csv })
}

pub(crate) fn income(members: &mut Reading) -> Result<Report, Fault>
    ensures { Gives (income (rest members.old)) result (rest members.new) }
{
    let from = members.needed("from")?;
    let to = members.needed("to")?;
    let csv = members.flag("csv")?;
    Ok(Report::Income { from, to, csv })
}

pub(crate) fn lots(members: &mut Reading) -> Result<Report, Fault>
    ensures { Gives (lots (rest members.old)) result (rest members.new) }
{
    let account = members.needed("account")?;
    let csv = members.flag("csv")?;
    Ok(Report::Lots { account, csv })
}

pub(crate) fn gains(members: &mut Reading) -> Result<Report, Fault>
    ensures { Gives (gains (rest members.old)) result (rest members.new) }
{
    let account = members.needed("account")?;
    let from = members.needed("from")?;
    let to = members.needed("to")?;
    Ok(Report::Gains { account, from, to })
}
