//! Shows what a bank statement file says, for a person: `show_statements FORMAT` reads a file on standard input and
//! writes its statements with their lines, or its fault. FORMAT is `mt940` or `bai2`, or `qif-md` or `qif-dm` with the
//! currency's code and its fraction behind it, as `EUR 100`. A last word `counts` asks for counts alone.
#![tactic(auto)]

use book_commodity::OutOfMemory;
use statement_texts::{Currencies, answer, read_words};
use std::io::{ErrorKind, Read, Write};
use std::process::ExitCode;
use std::{env, io};

const USAGE: &str =
    "show_statements mt940|bai2 [counts], or show_statements qif-md|qif-dm CODE FRACTION [counts]";

/// The words behind the program's name.
fn words(rt: &HostRuntime) -> io::Result<Vec<String>> {
    let mut words = Vec::new(rt.alloc());
    for word in env::args(rt)?.skip(1) {
        words.push(word)?;
    }
    Ok(words)
}

/// Does what the words ask, over the standard streams: false where they ask nothing.
fn run(rt: &HostRuntime) -> io::Result<bool> {
    let words = words(rt)?;
    let Some(asked) = read_words(words.as_slice()) else {
        return Ok(false);
    };
    let Ok(known) = Currencies::usual(rt.alloc()) else {
        return Err(out_of_memory());
    };
    let mut bytes = Vec::new(rt.alloc());
    rt.reader().read_to_end(&mut bytes)?;
    match answer(rt.alloc(), &asked, &known, bytes.as_slice()) {
        Ok(out) => io::writer(rt).write_all(out.as_slice())?,
        Err(OutOfMemory) => return Err(out_of_memory()),
    }
    Ok(true)
}

/// The error that memory ran out.
fn out_of_memory() -> io::Error {
    io::Error::from(ErrorKind::OutOfMemory)
}

/// Ends with 0 where the file was answered, with 2 and the usage where the words ask nothing, and else with 1.
fn main(rt: HostRuntime) -> ExitCode {
    match run(&rt) {
        Ok(true) => ExitCode::SUCCESS,
        Ok(false) => {
            let _ = rt.eprintln(USAGE);
            ExitCode::from(2)
        }
        Err(error) => {
            let _ = eprintln!(rt; "show_statements: {error}");
            ExitCode::from(1)
        }
    }
}
