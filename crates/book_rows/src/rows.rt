/// The marker of the spellings that the rows of a book have.
pub struct Rows;
