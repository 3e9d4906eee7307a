ghost use Rattle.std.specs.Prelude.{◌≡◌, IfOk};
ghost use Rattle.book_accounts.specs.Rules.{is_named};

use crate::AccountKind;
use book_commodity::{OutOfMemory, Text};

/// An account. Its amounts are in smallest units of its commodity; a placeholder takes no splits; a security
/// account has as basis the currency in which its splits' values stand.
#[derive(Drop)]
pub struct Account {
    pub name: Text,
    pub kind: AccountKind,
    pub commodity: u64,
    pub parent: Option<u64>,
    pub code: Text,
    pub note: Text,
    pub hidden: bool,
    pub placeholder: bool,
    pub basis: Option<u64>,
}

impl Account {
    /// An equal account with texts of its own.
    pub fn copy(&self) -> Result<Account, OutOfMemory>
        ensures { IfOk result (λ copy. copy ≡ self.now) }
    {
        Ok(Account {
            name: self.name.copy()?,
            kind: self.kind,
            commodity: self.commodity,
            parent: self.parent,
            code: self.code.copy()?,
            note: self.note.copy()?,
            hidden: self.hidden,
            placeholder: self.placeholder,
            basis: self.basis,
        })
    }

    /// Whether the account has this parent and this name.
    pub(crate) fn is_named(&self, parent: u64, name: &Text) -> bool
        ensures { result ≡ is_named parent name.now self.now }
    {
        self.parent == Some(parent) && self.name.as_str() == name.as_str()
    }
}
