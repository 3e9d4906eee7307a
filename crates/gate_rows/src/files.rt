ghost use Rattle.std.specs.Prelude.{◌≤◌};

use crate::comparing::{Case, compare_lines};
use crate::counters::{memory, number, unread};
use crate::report::Report;
use crate::run::Run;
use crate::script::{Line, Section, sections_of};
use statement_texts::{Currencies, answer, read_words};
use std::alloc::Global;
use std::io;

/// A statement file: its bytes and the rows that are wanted of it, its format, the currencies that are known if the
/// case names some, and where the lines that are repeated begin, with how many times they stand there.
#[derive(Drop)]
struct StatementFile<'a> {
    run: Run,
    format: &'a str,
    known: Option<Currencies>,
    repeated: (usize, u64),
}

impl<'a> StatementFile<'a> {
    /// A file without bytes, whose case begins at this line.
    fn new(alloc: Global, number: usize) -> io::Result<StatementFile<'a>> {
        Ok(StatementFile {
            run: Run::new(alloc, number)?,
            format: "",
            known: None,
            repeated: (0, 1),
        })
    }

    /// Takes in the lines of a case. The first that can't be read, if there is one.
    fn take_all(&mut self, alloc: Global, lines: &[Line<'a>]) -> Result<(), Line<'a>> {
        for line in lines {
            if self.take(alloc, *line).is_err() {
                return Err(*line);
            }
        }
        Ok(())
    }

    /// Takes in a line of a case. Lines `> TEXT`, `- TEXT`, `x HEX` and `< ROW` are those of a run; `>c TEXT` is a line
    /// that ends by a carriage return and a line feed. What stands between `repeat N` and `end` is there N times.
    fn take(&mut self, alloc: Global, line: Line<'a>) -> io::Result<()> {
        let (mark, rest) = line.text.split_once(' ').unwrap_or((line.text, ""));
        match mark {
            "format" => self.format = rest,
            "known" => self.add_known(alloc, rest)?,
            "repeat" => self.repeated = (self.run.input.len(), number(rest)?),
            "end" => self.repeat(alloc)?,
            ">c" => self.add_with_return(rest)?,
            ">" | ">*" | "-" | "-*" | "x" => {
                self.run.take_given(alloc, mark, rest, line.number)?;
            }
            "<" => {
                self.run.wanted.take(alloc, mark, rest, line.number)?;
            }
            _ => return Err(unread()),
        }
        Ok(())
    }

    /// Adds a line that ends by a carriage return and a line feed.
    fn add_with_return(&mut self, text: &str) -> io::Result<()> {
        self.run.input.extend_from_slice(text.as_bytes())?;
        self.run.input.extend_from_slice(b"\r\n")?;
        Ok(())
    }

    /// Adds a currency that is known, written as `CODE FRACTION`.
    fn add_known(&mut self, alloc: Global, text: &str) -> io::Result<()> {
        let (code, fraction) = text.split_once(' ').unwrap_or((text, ""));
        let fraction = number(fraction)?;
        if fraction < 1 || fraction > 1_000_000_000 {
            return Err(unread());
        }
        let mut known = match self.known.take() {
            Some(known) => known,
            None => Currencies::new(alloc),
        };
        known.add(alloc, code, fraction).map_err(|_| memory())?;
        self.known = Some(known);
        Ok(())
    }

    /// Adds what was added since the line `repeat`, so many times that it stands there as often as that line says.
    fn repeat(&mut self, alloc: Global) -> io::Result<()> {
        let (begin, times) = self.repeated;
        let Some(piece) = self.run.input.as_slice().get(begin..) else {
            return Err(unread());
        };
        let piece = piece.to_vec(alloc)?;
        for _ in 1..times {
            self.run.input.extend_from_slice(piece.as_slice())?;
        }
        Ok(())
    }

    /// The rows that answer the file.
    fn rows(&self, alloc: Global) -> io::Result<Vec<u8>> {
        let mut words = Vec::new(alloc);
        for word in self.format.split(' ') {
            words.push(String::from_str(alloc, word)?)?;
        }
        let Some(asked) = read_words(words.as_slice()) else {
            return Err(unread());
        };
        let usual = Currencies::usual(alloc).map_err(|_| memory())?;
        let known = self.known.as_ref().unwrap_or(&usual);
        answer(alloc, &asked, known, self.run.input.as_slice()).map_err(|_| memory())
    }
}

/// Reads the statement files of a file, compares the rows of each with those that are wanted, and says how many there
/// are.
pub fn check_files(report: &mut Report<'_>, file: &str) -> io::Result<()>
    ensures later { report.old.failed ≤ report.new.failed }
{
    let text = report.read(file)?;
    let sections = sections_of(report.alloc(), text.as_str())?;
    let mut files: u64 = 0;
    for section in sections.as_slice() {
        if section.is_case {
            check_case(report, file, section)?;
            files = files.saturating_add(1);
        }
    }
    report.say_lines(file, files, "files", text.as_str())
}

/// Reads the statement file of a case, and compares its rows. A line that can't be read fails the case.
fn check_case(report: &mut Report<'_>, file: &str, section: &Section<'_>) -> io::Result<()>
    ensures later { report.old.failed ≤ report.new.failed }
{
    let name = section.name;
    let case = Case { file, name };
    let mut statement_file = StatementFile::new(report.alloc(), section.number)?;
    match statement_file.take_all(report.alloc(), section.lines.as_slice()) {
        Ok(()) => compare_rows(report, case, section.number, &statement_file),
        Err(line) => report.fail(
            case.at(line.number),
            "a line of a statement file",
            line.text,
        ),
    }
}

/// Compares the rows of a statement file with those that are wanted.
fn compare_rows(
    report: &mut Report<'_>,
    case: Case<'_>,
    number: usize,
    statement_file: &StatementFile<'_>,
) -> io::Result<()>
    ensures later { report.old.failed ≤ report.new.failed }
{
    match statement_file.rows(report.alloc()) {
        Ok(rows) => compare_lines(report, case, &statement_file.run, rows.as_slice()),
        Err(_) => report.fail(
            case.at(number),
            "rows of a format that can be read",
            statement_file.format,
        ),
    }
}
