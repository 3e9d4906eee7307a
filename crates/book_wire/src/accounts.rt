ghost use Rattle.std.specs.Prelude.{◌≡◌};
ghost use Rattle.book_json.specs.Reads.{rest, Gives};
ghost use Rattle.book_wire.specs.Accounts.{account, account_add, account_drop, account_edit};

use crate::kinds::kind;
use book_accounts::Account;
use book_command::{GivenAccount, Update};
use book_commodity::Text;
use book_json::{Fault, Filled, Reading};

pub(crate) fn account_add(members: &mut Reading) -> Result<Update, Fault>
    ensures { Gives (account_add (rest members.old)) result (rest members.new) }
{
    let account = account(members)?;
    Ok(Update::AccountAdd { account })
}

/// A new account.
#[tactic(auto, unfolding(crate::specs::Accounts::account))]
fn account(members: &mut Reading) -> Result<Account, Fault>
    ensures { Gives (account (rest members.old)) result (rest members.new) }
{
    let name = members.needed::<Filled>("name")?;
    let kind = kind(members)?;
    let commodity = members.needed("commodity")?;
    let parent = members.needed("parent")?;
    let code = members.text("code")?;
    let note = members.text("note")?;
    let hidden = members.flag("hidden")?;
    let placeholder = members.flag("placeholder")?;
    let basis = members.optional("basis")?;
    Ok(Account {
        name: name.into_text(),
        kind,
        commodity,
        parent: Some(parent),
        code,
        note,
        hidden,
        placeholder,
        basis,
    })
}

pub(crate) fn account_edit(members: &mut Reading) -> Result<Update, Fault>
    ensures { Gives (account_edit (rest members.old)) result (rest members.new) }
{
    let account = members.needed("account")?;
    let name = members.optional("name")?;
    let parent = members.optional("parent")?;
    let code = members.optional("code")?;
    let note = members.optional("note")?;
    let hidden = members.optional("hidden")?;
    let placeholder = members.optional("placeholder")?;
    let given = GivenAccount {
        name: text_of(name),
        parent,
        code,
        note,
        hidden,
        placeholder,
    };
    Ok(Update::AccountEdit { account, given })
}

/// The text, where one is given.
fn text_of(filled: Option<Filled>) -> Option<Text>
    ensures { result ≡ filled }
{
    filled.map(|filled| filled.into_text())
}

pub(crate) fn account_drop(members: &mut Reading) -> Result<Update, Fault>
    ensures { Gives (account_drop (rest members.old)) result (rest members.new) }
{
    let account = members.needed("account")?;
    Ok(Update::AccountDrop { account })
}
