ghost use Rattle.std.specs.Prelude.{◌≡◌, ◌≤◌, ◌==◌};
ghost use Rattle.book_keeper.specs.Faults.{next_count};

use std::alloc::{AllocError, Global};
use std::{fs, io};

/// How many characters of a text are shown.
const SHOWN: usize = 150;

/// Where a row stands: its file, the number of its line, and the name of its case.
#[derive(Clone, Copy)]
pub struct Place<'a> {
    pub file: &'a str,
    pub line: usize,
    pub name: &'a str,
}

/// Says what was compared, and counts the rows that failed.
#[derive(Drop)]
pub struct Report<'a> {
    rt: &'a HostRuntime,
    failed: u64,
    is_silent: bool,
}

impl<'a> Report<'a> {
    /// A report in which no row failed.
    pub fn new(rt: &'a HostRuntime) -> Report<'a>
        ensures { result.failed ≡ 0 }
    {
        Report {
            rt,
            failed: 0,
            is_silent: false,
        }
    }

    /// A report in which no row failed, and which says nothing.
    pub fn silent(rt: &'a HostRuntime) -> Report<'a>
        ensures { result.failed ≡ 0 }
    {
        Report {
            rt,
            failed: 0,
            is_silent: true,
        }
    }

    /// The host.
    pub fn rt(&self) -> &'a HostRuntime
        ensures { result ≡ self.now.rt }
    {
        self.rt
    }

    /// The allocator.
    pub fn alloc(&self) -> Global {
        self.rt.alloc()
    }

    /// Whether no row failed.
    pub fn has_no_failure(&self) -> bool
        ensures { result ≡ (self.now.failed == 0) }
    {
        self.failed == 0
    }

    /// The text of a file.
    pub fn read(&self, file: &str) -> io::Result<String> {
        fs::read_to_string(self.rt, file)
    }

    /// Says a line on standard output.
    pub fn say(&self, line: &str) -> io::Result<()> {
        let rt = self.rt;
        println!(rt; "{line}")
    }

    /// Says how many things a file has, of which each was compared.
    pub fn say_count(&self, file: &str, count: u64, things: &str) -> io::Result<()> {
        let rt = self.rt;
        println!(rt; "{file}: {count} {things}")
    }

    /// The same, and how many lines the file's text has.
    pub fn say_lines(&self, file: &str, count: u64, things: &str, text: &str) -> io::Result<()> {
        let rt = self.rt;
        let lines = text.lines().count();
        println!(rt; "{file}: {count} {things} of {lines} lines")
    }

    /// Says that a row failed, on standard output and on standard error.
    pub fn fail(&mut self, place: Place<'_>, wanted: &str, came: &str) -> io::Result<()>
        ensures counted { self.new.failed ≡ next_count self.old.failed }
        ensures later { self.old.failed ≤ self.new.failed }
    {
        self.failed = self.failed.saturating_add(1);
        if self.is_silent {
            return Ok(());
        }
        let rt = self.rt;
        let wanted = beginning(rt.alloc(), wanted)?;
        let came = beginning(rt.alloc(), came)?;
        let Place { file, line, name } = place;
        let line = format!(in rt.alloc();
            "{file}:{line}: {name}: wanted {wanted}; there came {came}"
        )?;
        println!(rt; "{line}")?;
        eprintln!(rt; "{line}")
    }
}

/// The beginning of a text.
fn beginning(alloc: Global, text: &str) -> Result<String, AllocError> {
    let mut shown: String = text.chars().take(SHOWN).collect(alloc)?;
    if shown.len() < text.len() {
        shown.push_str("..")?;
    }
    Ok(shown)
}
