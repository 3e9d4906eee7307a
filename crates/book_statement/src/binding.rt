ghost use Rattle.std.specs.Prelude.{◌≡◌, IfOk};

use book_commodity::{OutOfMemory, Text};

/// The account of the book that a statement's account text stands for: `text` is what the files call the account, as a
/// statement's `account_text`.
#[derive(Drop)]
pub struct Binding {
    pub text: Text,
    pub account: u64,
}

impl Binding {
    /// An equal binding.
    pub fn copy(&self) -> Result<Binding, OutOfMemory>
        ensures { IfOk result (λ copy. copy ≡ self.now) }
    {
        Ok(Binding {
            text: self.text.copy()?,
            account: self.account,
        })
    }
}
