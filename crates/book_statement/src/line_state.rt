/// What became of a statement's line in the book: nothing yet, matched with the split of this number, or dismissed.
#[derive(Clone, Copy, Debug, PartialEq, Eq)]
pub enum LineState {
    Open,
    Matched(u64),
    Dismissed,
}
