use book_commodity::Text;

/// What the next message has to know of a message. The closing balance is in smallest units of the currency.
#[derive(Drop)]
pub struct Page {
    pub account: Text,
    pub currency: Text,
    pub closing: i64,
    /// Whether the message closes by 62M.
    pub closes_page: bool,
}
