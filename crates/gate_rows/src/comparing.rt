ghost use Rattle.std.specs.Prelude.{◌≡◌, ◌<◌, ◌≤◌, ◌∷◌, [], IfNone, IfSome, IsTrue, None, OnOk};
ghost use Rattle.std.specs.List.{list_all};
ghost use Rattle.std.specs.String.{string_bytes};
ghost use Rattle.book_keeper.specs.Faults.{next_count};
ghost use Rattle.gate_rows.specs.Comparing.{AreHeld, CountsUnless, body_at, count_wrong, is_held};

use crate::answers::WantedRow;
use crate::report::{Place, Report};
use crate::run::Run;
use book_keeper::{MemSink, Row, RowKey};
use std::alloc::Global;
use std::{io, str};

/// The case that is compared: its file and its name.
#[derive(Clone, Copy)]
pub struct Case<'a> {
    pub file: &'a str,
    pub name: &'a str,
}

impl<'a> Case<'a> {
    /// A line of it.
    pub fn at(self, line: usize) -> Place<'a>
        ensures { result ≡ record { file = self.entry.file; line = line; name = self.entry.name } }
    {
        Place {
            file: self.file,
            line,
            name: self.name,
        }
    }
}

/// How a run ended, as rows name it, what it wrote, and how many bytes of its input were not read.
#[derive(Drop)]
pub struct Outcome {
    pub status: String,
    pub output: MemSink,
    pub unread: usize,
}

/// Compares how a run ended, what it answered and left unread, and the rows that are held then, where they can be read.
pub fn compare(
    report: &mut Report<'_>,
    case: Case<'_>,
    run: &Run,
    outcome: &Outcome,
    rows: Option<&[Row]>,
) -> io::Result<()>
    ensures later { report.old.failed ≤ report.new.failed }
    ensures status { OnOk result (report.new.failed < next_count report.old.failed
        → string_bytes outcome.now.status ≡ string_bytes run.now.wanted.status) }
    ensures unread { OnOk result (report.new.failed < next_count report.old.failed
        → IfSome run.now.wanted.unread (λ count. count ≡ outcome.now.unread)) }
    ensures held { OnOk result (report.new.failed < next_count report.old.failed
        → IfSome rows.entry (λ held. AreHeld held.now run.now.wanted)) }
    ensures none { OnOk result (report.new.failed < next_count report.old.failed
        → IfNone rows.entry ((run.now.wanted.count ≡ None) × (run.now.wanted.rows.items ≡ []))) }
{
    let came = outcome.status.as_str();
    compare_status(report, case.at(run.line), came, run.wanted.status.as_str())?;
    compare_unread(report, case, run, outcome)?;
    compare_lines(report, case, run, outcome.output.written())?;
    match rows {
        Some(rows) => compare_held(report, case, run, rows),
        None => compare_unread_rows(report, case, run),
    }
}

/// Compares how many rows are held, and those that are named.
fn compare_held(report: &mut Report<'_>, case: Case<'_>, run: &Run, rows: &[Row]) -> io::Result<()>
    ensures later { report.old.failed ≤ report.new.failed }
    ensures held { OnOk result (report.new.failed < next_count report.old.failed → AreHeld rows.now run.now.wanted) }
{
    compare_count(report, case, run, rows.len())?;
    compare_rows(report, case, run, rows)
}

/// Where the rows can't be read, none may be wanted.
fn compare_unread_rows(report: &mut Report<'_>, case: Case<'_>, run: &Run) -> io::Result<()>
    ensures later { report.old.failed ≤ report.new.failed }
    ensures counted { CountsUnless ((run.now.wanted.count ≡ None) × (run.now.wanted.rows.items ≡ []))
        report.old.failed report.new.failed }
{
    if run.wanted.count.is_none() && run.wanted.rows.is_empty() {
        return Ok(());
    }
    report.fail(case.at(run.line), "rows", "rows that can't be read")
}

/// Compares how a run ended.
pub fn compare_status(
    report: &mut Report<'_>,
    place: Place<'_>,
    came: &str,
    wanted: &str,
) -> io::Result<()>
    ensures later { report.old.failed ≤ report.new.failed }
    ensures counted { CountsUnless (came.now ≡ wanted.now) report.old.failed report.new.failed }
{
    if came == wanted {
        return Ok(());
    }
    report.fail(place, wanted, came)
}

/// Compares how many bytes of the input were not read.
fn compare_unread(
    report: &mut Report<'_>,
    case: Case<'_>,
    run: &Run,
    outcome: &Outcome,
) -> io::Result<()>
    ensures later { report.old.failed ≤ report.new.failed }
    ensures counted { OnOk result (CountsUnless (IfSome run.now.wanted.unread (λ count. count ≡ outcome.now.unread))
        report.old.failed report.new.failed) }
{
    match run.wanted.unread {
        Some(count) if count != outcome.unread => {
            let came = format!(in report.alloc(); "{}", outcome.unread)?;
            let wanted = format!(in report.alloc(); "{count} bytes that are not read")?;
            report.fail(case.at(run.line), wanted.as_str(), came.as_str())
        }
        _ => Ok(()),
    }
}

/// Compares the lines that were written with the wanted ones, one by one. At most one that is wrong is said.
pub fn compare_lines(
    report: &mut Report<'_>,
    case: Case<'_>,
    run: &Run,
    written: &[u8],
) -> io::Result<()>
    ensures later { report.old.failed ≤ report.new.failed }
    ensures once { report.new.failed ≤ next_count report.old.failed }
{
    let Ok(text) = str::from_utf8(written) else {
        return report.fail(case.at(run.line), "lines in UTF-8", "other bytes");
    };
    let mut lines = text.split('\n');
    for answer in run.wanted.answers.as_slice() {
        let came = lines.next().unwrap_or("");
        if !answer.is(came) {
            let (begins, ends) = (answer.begins.as_str(), answer.ends.as_str());
            let between = if answer.is_whole { "" } else { " .. " };
            let wanted = format!(in report.alloc(); "{begins}{between}{ends}")?;
            return report.fail(case.at(answer.line), wanted.as_str(), came);
        }
    }
    match (lines.next(), lines.next()) {
        (Some(""), None) => Ok(()),
        (more, _) => report.fail(
            case.at(run.line),
            "an end behind the lines",
            more.unwrap_or("none"),
        ),
    }
}

/// Compares how many rows are held.
fn compare_count(report: &mut Report<'_>, case: Case<'_>, run: &Run, held: usize) -> io::Result<()>
    ensures later { report.old.failed ≤ report.new.failed }
    ensures counted { OnOk result (CountsUnless (IfSome run.now.wanted.count (λ count. count ≡ held))
        report.old.failed report.new.failed) }
{
    match run.wanted.count {
        Some(count) if count != held => {
            let wanted = format!(in report.alloc(); "{count} rows")?;
            let came = format!(in report.alloc(); "{held}")?;
            report.fail(case.at(run.line), wanted.as_str(), came.as_str())
        }
        _ => Ok(()),
    }
}

/// Compares the rows that are named with those that are held.
#[tactic(auto, using(crate::proofs::ComparingLemmas::count_from))]
fn compare_rows(report: &mut Report<'_>, case: Case<'_>, run: &Run, rows: &[Row]) -> io::Result<()>
    ensures later { report.old.failed ≤ report.new.failed }
    ensures counted { OnOk result (report.new.failed
        ≡ count_wrong (is_held rows.now) run.now.wanted.rows.items report.old.failed) }
    ensures right { OnOk result (report.new.failed < next_count report.old.failed
        → IsTrue (list_all (is_held rows.now) run.now.wanted.rows.items)) }
{
    for wanted in run.wanted.rows.as_slice() {
        compare_row(report, case, wanted, rows)?;
    }
    Ok(())
}

/// Compares a row with the one that is held under its key; one that is not held has no bytes.
fn compare_row(
    report: &mut Report<'_>,
    case: Case<'_>,
    wanted: &WantedRow,
    rows: &[Row],
) -> io::Result<()>
    ensures later { report.old.failed ≤ report.new.failed }
    ensures counted { OnOk result (report.new.failed
        ≡ count_wrong (is_held rows.now) (wanted.now ∷ []) report.old.failed) }
{
    let body = body_at(rows, wanted.key);
    if body == wanted.body.as_slice() {
        return Ok(());
    }
    let came = hex_of(report.alloc(), body)?;
    let wanted_body = hex_of(report.alloc(), wanted.body.as_slice())?;
    report.fail(case.at(wanted.line), wanted_body.as_str(), came.as_str())
}

/// The body of the first row with a key; no bytes where there is no such row.
#[tactic(auto, using(crate::proofs::ComparingLemmas::body_from))]
fn body_at(rows: &[Row], key: RowKey) -> &[u8]
    ensures { result.now ≡ body_at key rows.now }
{
    for row in rows {
        if row.key == key {
            return row.body.as_slice();
        }
    }
    &[]
}

/// Bytes as hexadecimal digits.
fn hex_of(alloc: Global, bytes: &[u8]) -> io::Result<String> {
    Ok(hex::encode(alloc, bytes)?)
}
