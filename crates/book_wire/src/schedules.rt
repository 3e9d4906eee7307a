ghost use Rattle.book_json.specs.Reads.{rest, Gives};
ghost use Rattle.book_wire.specs.Schedules.{due, schedule, schedule_add, schedule_drop, schedule_run};

use crate::posting::{NewSplit, transaction_of};
use crate::recurrences::{GivenEnd, GivenRecurrence, in_32_bits};
use book_command::{GivenSchedule, Update, What};
use book_json::{Fault, Filled, Reading};
use book_schedule::End;

pub(crate) fn schedule_add(members: &mut Reading) -> Result<What, Fault>
    ensures { Gives (schedule_add (rest members.old)) result (rest members.new) }
{
    let given = schedule(members)?;
    Ok(What::Update(Update::ScheduleAdd { given }))
}

/// A new schedule.
#[tactic(auto, unfolding(crate::specs::Schedules::schedule))]
fn schedule(members: &mut Reading) -> Result<GivenSchedule, Fault>
    ensures { Gives (schedule (rest members.old)) result (rest members.new) }
{
    let name = members.needed::<Filled>("name")?;
    let recurrences = members.objects::<GivenRecurrence>("recurrences")?;
    let end = members.optional_object::<GivenEnd>("end")?;
    let advance = members.optional("advance")?;
    let template = transaction_of::<NewSplit>(members)?;
    Ok(GivenSchedule {
        name: name.into_text(),
        recurrences,
        end: end.unwrap_or(End::Never),
        advance: in_32_bits(advance.unwrap_or(0)),
        template,
    })
}

pub(crate) fn schedule_drop(members: &mut Reading) -> Result<What, Fault>
    ensures { Gives (schedule_drop (rest members.old)) result (rest members.new) }
{
    let schedule = members.needed("schedule")?;
    Ok(What::Update(Update::ScheduleDrop { schedule }))
}

pub(crate) fn schedule_run(members: &mut Reading) -> Result<What, Fault>
    ensures { Gives (schedule_run (rest members.old)) result (rest members.new) }
{
    let upto = members.needed("upto")?;
    let schedule = members.optional("schedule")?;
    Ok(What::Update(Update::ScheduleRun { upto, schedule }))
}

pub(crate) fn due(members: &mut Reading) -> Result<What, Fault>
    ensures { Gives (due (rest members.old)) result (rest members.new) }
{
    let upto = members.needed("upto")?;
    Ok(What::Due { upto })
}
