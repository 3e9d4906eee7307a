/// What a count in a file counts: the records of an account, the accounts or records of a group, the groups or records
/// of the file.
#[derive(Clone, Copy, Debug, PartialEq, Eq)]
pub enum CountOf {
    AccountRecords,
    GroupAccounts,
    GroupRecords,
    FileGroups,
    FileRecords,
}
