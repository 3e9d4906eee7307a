ghost use Rattle.std.specs.Prelude.{codes};
ghost use Rattle.book_json.specs.Members.{needed};
ghost use Rattle.book_json.specs.Reads.{rest, Gives};
ghost use Rattle.book_wire.specs.Kinds.{kind_form};

use book_accounts::AccountKind;
use book_json::{Fault, Reading};

/// The words of the kinds of accounts.
const ACCOUNT_KINDS: [(&str, AccountKind); 13] = [
    ("ROOT", AccountKind::Root),
    ("ASSET", AccountKind::Asset),
    ("BANK", AccountKind::Bank),
    ("CASH", AccountKind::Cash),
    ("CREDIT", AccountKind::Credit),
    ("LIABILITY", AccountKind::Liability),
    ("STOCK", AccountKind::Stock),
    ("MUTUAL", AccountKind::Mutual),
    ("RECEIVABLE", AccountKind::Receivable),
    ("PAYABLE", AccountKind::Payable),
    ("INCOME", AccountKind::Income),
    ("EXPENSE", AccountKind::Expense),
    ("EQUITY", AccountKind::Equity),
];

/// The kind of a new account.
#[tactic(auto, unfolding(crate::specs::Kinds::kind_form))]
pub(crate) fn kind(members: &mut Reading) -> Result<AccountKind, Fault>
    ensures { Gives (needed kind_form (codes "kind") (rest members.old)) result (rest members.new) }
{
    members.word("kind", &ACCOUNT_KINDS)
}
