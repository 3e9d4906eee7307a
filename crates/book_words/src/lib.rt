//! The words of the program, parted by the kit's `clap`. The program's own grammar decides which words are right;
//! `part` is asked only for those, and says that `clap` finds the same parts in them. A crate of its own, since what
//! uses the types of `clap` takes long to check.
#![tactic(auto)]

use book_commodity::{OutOfMemory, Text};
use clap::{Arg, ArgAction, ArgMatches, Command};
use std::alloc::{AllocError, Global};

/// The name of the first operand, which each subcommand has: a book or a number.
const OPERAND: &str = "operand";

/// The names of the operands that `import` has behind its book.
const FORMAT: &str = "format";

const ACCOUNT: &str = "account";

const CURRENCY: &str = "currency";

/// The names of the operands that `serve` has behind its book.
const PORT: &str = "port";

const LINKS: &str = "links";

/// An operand, which is required.
fn operand<'a>(alloc: Global, name: &'a str) -> Arg<'a> {
    Arg::new(alloc, name).required(true).action(ArgAction::Set)
}

/// A subcommand with its first operand.
fn subcommand<'a>(alloc: Global, name: &'a str) -> Result<Command<'a>, AllocError> {
    Command::new(alloc, name).arg(operand(alloc, OPERAND))
}

/// The subcommand `import` with its four operands.
fn import<'a>(alloc: Global) -> Result<Command<'a>, AllocError> {
    subcommand(alloc, "import")?
        .arg(operand(alloc, FORMAT))?
        .arg(operand(alloc, ACCOUNT))?
        .arg(operand(alloc, CURRENCY))
}

/// The subcommand `serve` with its three operands.
fn serve<'a>(alloc: Global) -> Result<Command<'a>, AllocError> {
    subcommand(alloc, "serve")?
        .arg(operand(alloc, PORT))?
        .arg(operand(alloc, LINKS))
}

/// The program's words: the subcommand `run` with a book, the subcommand `import` with a book, a format, an account and
/// a currency, the subcommand `serve` with a book, a port and a number of links, and the subcommand `sample` with a
/// number.
fn grammar<'a>(alloc: Global) -> Result<Command<'a>, AllocError> {
    let run = subcommand(alloc, "run")?;
    let import = import(alloc)?;
    let serve = serve(alloc)?;
    let sample = subcommand(alloc, "sample")?;
    Command::new(alloc, "book")
        .subcommand(run)?
        .subcommand(import)?
        .subcommand(serve)?
        .subcommand(sample)
}

/// The words behind the program's name, and the name before them.
fn line_of<'a>(alloc: Global, words: &'a [Text]) -> Result<Vec<&'a str>, AllocError> {
    let mut line = Vec::new(alloc);
    line.push("book")?;
    for word in words {
        line.push(word.as_str())?;
    }
    Ok(line)
}

/// Whether this is an operand of this name.
fn is_operand(found: &ArgMatches<'_>, name: &str, operand: &Text) -> bool {
    found.get_str(name) == Some(operand.as_str())
}

/// Whether these are a subcommand's operands, the only one, the three of `serve` or the four of `import`.
fn are_operands(found: &ArgMatches<'_>, operands: &[Text]) -> bool {
    match operands {
        [only] => is_operand(found, OPERAND, only),
        [book, port, links] => {
            is_operand(found, OPERAND, book)
                && is_operand(found, PORT, port)
                && is_operand(found, LINKS, links)
        }
        [book, format, account, currency] => {
            is_operand(found, OPERAND, book)
                && is_operand(found, FORMAT, format)
                && is_operand(found, ACCOUNT, account)
                && is_operand(found, CURRENCY, currency)
        }
        _ => false,
    }
}

/// Whether these parts are this subcommand with these operands.
fn are_parts(parts: &ArgMatches<'_>, name: &str, operands: &[Text]) -> bool {
    match parts.subcommand_matches(name) {
        Some(found) => are_operands(found, operands),
        None => false,
    }
}

/// Whether `clap` finds this subcommand and these operands in the line. Not where it is out of memory.
fn finds<'a>(
    alloc: Global,
    line: &'a [&'a str],
    name: &str,
    operands: &[Text],
) -> Result<bool, AllocError> {
    let command = grammar(alloc)?;
    match command.try_get_matches_from(line) {
        Ok(parts) => Ok(are_parts(&parts, name, operands)),
        Err(_error) => Ok(false),
    }
}

/// Parts the words, which are of the program's grammar: a subcommand and its operands, of which none is empty or begins
/// with a hyphen.
/// OutOfMemory: `clap` was out of memory, or found other parts, as it does in other words.
pub fn part(alloc: Global, words: &[Text]) -> Result<(), OutOfMemory> {
    let [name, operands @ ..] = words else {
        return Err(OutOfMemory);
    };
    let line = line_of(alloc, words)?;
    if finds(alloc, line.as_slice(), name.as_str(), operands)? {
        Ok(())
    } else {
        Err(OutOfMemory)
    }
}
