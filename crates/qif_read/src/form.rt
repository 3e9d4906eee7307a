use crate::DateOrder;
use book_commodity::Text;

/// How a file is read: the order of day and month, and the fraction and the code of its currency.
#[derive(Drop)]
pub struct Form {
    pub order: DateOrder,
    pub fraction: u64,
    pub currency: Text,
}
