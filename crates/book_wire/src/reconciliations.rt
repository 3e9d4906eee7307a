ghost use Rattle.book_json.specs.Reads.{rest, Gives};
ghost use Rattle.book_wire.specs.Reconciliations.{reconcile, reconcile_statement, recons};

use book_command::{Update, What};
use book_json::{Fault, Reading};

pub(crate) fn reconcile(members: &mut Reading) -> Result<What, Fault>
    ensures { Gives (reconcile (rest members.old)) result (rest members.new) }
{
    let account = members.needed("account")?;
    let day = members.needed("day")?;
    let closing = members.needed("closing")?;
    Ok(What::Update(Update::Reconcile {
        account,
        day,
        closing,
    }))
}

pub(crate) fn reconcile_statement(members: &mut Reading) -> Result<What, Fault>
    ensures { Gives (reconcile_statement (rest members.old)) result (rest members.new) }
{
    let statement = members.needed("statement")?;
    Ok(What::Update(Update::ReconcileStatement { statement }))
}

pub(crate) fn recons(members: &mut Reading) -> Result<What, Fault>
    ensures { Gives (recons (rest members.old)) result (rest members.new) }
{
    let account = members.needed("account")?;
    Ok(What::Recons { account })
}
