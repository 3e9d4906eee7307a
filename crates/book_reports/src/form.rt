/// The form of a report: in columns for a person, or as comma-separated values for a program.
#[derive(Clone, Copy, Debug, PartialEq, Eq)]
pub enum Form {
    Plain,
    Csv,
}
