ghost use Rattle.std.specs.Prelude.{◌≡◌, IfOk};
ghost use Rattle.mt940_read.specs.Pages.{page_of, statement_alone};

use crate::message::Message;
use crate::page::Page;
use book_commodity::{Many, OutOfMemory, Text};
use book_statement::{Statement, StatementLine};
use std::alloc::Global;
use std::mem;

/// The statement of a message alone, with these lines.
pub fn statement_of(message: &Message, lines: Vec<StatementLine>) -> Result<Statement, OutOfMemory>
    ensures { IfOk result (λ statement. statement ≡ record (statement_alone message.now) { lines = lines.items }) }
{
    Ok(Statement {
        account_text: message.account.copy()?,
        number: message.number.copy()?,
        currency: message.currency.copy()?,
        opening: message.opening,
        closing: message.closing,
        day: message.day,
        ties: Some(true),
        lines: Many::of(lines),
    })
}

/// What the next message has to know of a message.
pub fn page_of(alloc: Global, message: Message) -> Page
    ensures { result ≡ page_of message }
{
    let mut message = message;
    Page {
        account: mem::replace(&mut message.account, Text::new(alloc)),
        currency: mem::replace(&mut message.currency, Text::new(alloc)),
        closing: message.closing.unwrap_or(0),
        closes_page: message.closes_page,
    }
}
