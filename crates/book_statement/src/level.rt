/// What a control total is the total of.
#[derive(Clone, Copy, Debug, PartialEq, Eq)]
pub enum Level {
    Account,
    Group,
    File,
}
