/// The kinds of numbered things that a rule can name.
#[derive(Clone, Copy, Debug, PartialEq, Eq)]
pub enum Kind {
    Commodity,
    Account,
    Transaction,
    Split,
    Price,
    Schedule,
    Statement,
    Line,
    Binding,
    Reconciliation,
}
