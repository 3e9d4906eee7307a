ghost use Rattle.std.specs.Prelude.{codes};
ghost use Rattle.book_json.specs.Members.{flag, needed};
ghost use Rattle.book_json.specs.Reads.{rest, Gives};
ghost use Rattle.book_wire.specs.Posting.{drop_transaction, edit, edited_split, mark, post, split, transaction};
ghost use Rattle.book_wire.specs.Posting.{mark_form, unvoid, void, voided};

use book_command::{GivenSplit, GivenTxn, Update, What};
use book_json::{Fault, Object, Reading};

/// The words for the marks that are set by hand, and whether the split is cleared.
const MARKS: [(&str, bool); 2] = [("n", false), ("c", true)];

pub(crate) fn post(members: &mut Reading) -> Result<Update, Fault>
    ensures { Gives (post (rest members.old)) result (rest members.new) }
{
    let day = members.needed("day")?;
    let given = transaction_of::<NewSplit>(members)?;
    Ok(Update::Post { day, given })
}

pub(crate) fn edit(members: &mut Reading) -> Result<Update, Fault>
    ensures { Gives (edit (rest members.old)) result (rest members.new) }
{
    let transaction = members.needed("transaction")?;
    let force = forced(members)?;
    let day = members.needed("day")?;
    let given = transaction_of::<EditedSplit>(members)?;
    Ok(Update::Edit {
        transaction,
        force,
        day,
        given,
    })
}

pub(crate) fn drop_transaction(members: &mut Reading) -> Result<Update, Fault>
    ensures { Gives (drop_transaction (rest members.old)) result (rest members.new) }
{
    let transaction = members.needed("transaction")?;
    let force = forced(members)?;
    Ok(Update::Drop { transaction, force })
}

pub(crate) fn void(members: &mut Reading) -> Result<Update, Fault>
    ensures { Gives (void (rest members.old)) result (rest members.new) }
{
    let transaction = members.needed("transaction")?;
    let reason = members.needed("reason")?;
    let force = forced(members)?;
    Ok(Update::Void {
        transaction,
        reason,
        force,
    })
}

pub(crate) fn unvoid(members: &mut Reading) -> Result<Update, Fault>
    ensures { Gives (unvoid (rest members.old)) result (rest members.new) }
{
    let transaction = members.needed("transaction")?;
    Ok(Update::Unvoid { transaction })
}

pub(crate) fn voided(members: &mut Reading) -> Result<What, Fault>
    ensures { Gives (voided (rest members.old)) result (rest members.new) }
{
    let account = members.needed("account")?;
    Ok(What::Voided { account })
}

pub(crate) fn mark(members: &mut Reading) -> Result<Update, Fault>
    ensures { Gives (mark (rest members.old)) result (rest members.new) }
{
    let split = members.needed("split")?;
    let cleared = cleared(members)?;
    let force = forced(members)?;
    Ok(Update::Mark {
        split,
        cleared,
        force,
    })
}

/// Whether the split is cleared, and not new.
#[tactic(auto, unfolding(crate::specs::Posting::mark_form))]
fn cleared(members: &mut Reading) -> Result<bool, Fault>
    ensures { Gives (needed mark_form (codes "state") (rest members.old)) result (rest members.new) }
{
    members.word("state", &MARKS)
}

/// Whether reconciled splits may change or go; where nothing is said they may not.
fn forced(members: &mut Reading) -> Result<bool, Fault>
    ensures { Gives (flag (codes "force") (rest members.old)) result (rest members.new) }
{
    members.flag("force")
}

/// A transaction, but for its day, with its splits read so.
#[tactic(auto, unfolding(crate::specs::Posting::transaction))]
pub(crate) fn transaction_of<S: Object<Value = GivenSplit>>(
    members: &mut Reading,
) -> Result<GivenTxn, Fault>
    ensures { Gives (transaction S.reader (rest members.old)) result (rest members.new) }
{
    let currency = members.needed("currency")?;
    let num = members.text("num")?;
    let description = members.text("description")?;
    let splits = members.objects::<S>("splits")?;
    Ok(GivenTxn {
        currency,
        num,
        description,
        splits,
    })
}

/// A split without a number.
#[tactic(auto, unfolding(crate::specs::Posting::split))]
fn split(members: &mut Reading) -> Result<GivenSplit, Fault>
    ensures { Gives (split (rest members.old)) result (rest members.new) }
{
    let account = members.needed("account")?;
    let value = members.needed("value")?;
    let quantity = members.optional("quantity")?;
    let memo = members.text("memo")?;
    let action = members.text("action")?;
    Ok(GivenSplit {
        account,
        value,
        quantity: quantity.unwrap_or(value),
        memo,
        action,
        id: None,
    })
}

/// The members of a split of a new transaction.
pub(crate) struct NewSplit;

impl Object for NewSplit {
    type Value = GivenSplit;

    ghost reader = { split };

    fn read(members: &mut Reading) -> Result<GivenSplit, Fault> {
        split(members)
    }
}

/// The members of a split of a transaction that is edited, which may keep its number.
struct EditedSplit;

impl Object for EditedSplit {
    type Value = GivenSplit;

    ghost reader = { edited_split };

    #[tactic(auto, unfolding(crate::specs::Posting::edited_split))]
    fn read(members: &mut Reading) -> Result<GivenSplit, Fault> {
        let mut split = split(members)?;
        split.id = members.optional("id")?;
        Ok(split)
    }
}
