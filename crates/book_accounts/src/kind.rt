ghost use Rattle.std.specs.Prelude.{◌≡◌};
ghost use Rattle.book_accounts.specs.Group.{group_of, is_security, is_group_under, fits_under};

/// The kinds of accounts (GnuCash Concepts Guide, account types).
#[derive(Clone, Copy, Debug, PartialEq, Eq)]
pub enum AccountKind {
    Root,
    Asset,
    Bank,
    Cash,
    Credit,
    Liability,
    Stock,
    Mutual,
    Receivable,
    Payable,
    Income,
    Expense,
    Equity,
}

/// The groups of kinds. A parent and its child are of one group, unless the parent is the root.
#[derive(Clone, Copy, Debug, PartialEq, Eq)]
pub enum AccountGroup {
    AssetsAndLiabilities,
    IncomeAndExpenses,
    Equity,
}

impl AccountKind {
    /// The group of the kind; `None` for the root, which is of none.
    pub fn group(self) -> Option<AccountGroup>
        ensures { result ≡ group_of self }
    {
        match self {
            AccountKind::Root => None,
            AccountKind::Asset
            | AccountKind::Bank
            | AccountKind::Cash
            | AccountKind::Credit
            | AccountKind::Liability
            | AccountKind::Stock
            | AccountKind::Mutual
            | AccountKind::Receivable
            | AccountKind::Payable => Some(AccountGroup::AssetsAndLiabilities),
            AccountKind::Income | AccountKind::Expense => Some(AccountGroup::IncomeAndExpenses),
            AccountKind::Equity => Some(AccountGroup::Equity),
        }
    }

    /// Whether accounts of the kind hold securities, and so have a basis.
    pub fn is_security(self) -> bool
        ensures { result ≡ is_security self }
    {
        matches!(self, AccountKind::Stock | AccountKind::Mutual)
    }

    /// Whether an account of the kind may stand right under one of the other kind.
    pub fn fits_under(self, above: AccountKind) -> bool
        ensures { result ≡ fits_under self above }
    {
        match (self.group(), above.group()) {
            (None, _) => false,
            (Some(_), None) => true,
            (Some(lower), Some(upper)) => lower == upper,
        }
    }
}
