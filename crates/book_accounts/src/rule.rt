/// A rule of the tree that an account would break.
#[derive(Clone, Copy, Debug, PartialEq, Eq)]
pub enum TreeRule {
    /// No account has this number.
    UnknownAccount { id: u64 },
    /// The account with this number has the same parent and the same name.
    NameTaken { id: u64 },
    /// The new parent is the account itself or stands under it.
    Cycle,
    /// The parent is in another group, or an account has no parent.
    ParentKind,
}
