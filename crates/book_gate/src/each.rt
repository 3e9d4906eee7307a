use crate::making::made_in_memory;
use book_keeper::{MemKeeper, Row};
use gate_rows::{
    Case, Each, Fault, Outcome, Place, Report, Run, Sort, are_same, compare, compare_status,
    copy_of, first_lines, without_line,
};
use std::alloc::Global;
use std::io;

/// The answer to a line whose change was not kept.
const REFUSED: &[u8] = b"{\"refused\":\"keeper\"}";

/// Makes the run again for each number of a call that fails, and compares what comes.
pub(crate) fn check_each(
    report: &mut Report<'_>,
    case: Case<'_>,
    run: &Run,
    keeper: &MemKeeper,
    each: Each,
) -> io::Result<()> {
    for number in 1..=each.last {
        let fault = Fault {
            sort: each.sort,
            number,
        };
        let name = format!(in report.alloc(); "{}, at {number}", case.name)?;
        let case = Case {
            file: case.file,
            name: name.as_str(),
        };
        check_fault(report, case, run, keeper, each.line, fault)?;
    }
    let beyond = Fault {
        sort: each.sort,
        number: each.last.saturating_add(1),
    };
    match each.sort {
        Sort::Call => Ok(()),
        _ => check_same(report, case, run, keeper, beyond),
    }
}

/// Makes the run with a call that fails, and compares.
fn check_fault(
    report: &mut Report<'_>,
    case: Case<'_>,
    run: &Run,
    keeper: &MemKeeper,
    line: usize,
    fault: Fault,
) -> io::Result<()> {
    match fault.sort {
        Sort::Read => check_read(report, case, run, keeper, line, fault),
        Sort::Write => check_write(report, case, run, keeper, line, fault),
        Sort::Commit => check_commit(report, case, run, keeper, line, fault),
        Sort::Call | Sort::Accept => check_same(report, case, run, keeper, fault),
    }
}

/// The outcome of a run with a call that fails, and the keeper.
fn made_again(
    alloc: Global,
    run: &Run,
    keeper: &MemKeeper,
    fault: Fault,
) -> io::Result<(Outcome, MemKeeper)> {
    let keeper = copy_of(alloc, keeper)?;
    made_in_memory(alloc, run, keeper, run.input.as_slice(), Some(fault))
}

/// Makes the run with a call that fails or is not reached, and compares all that it wants.
fn check_same(
    report: &mut Report<'_>,
    case: Case<'_>,
    run: &Run,
    keeper: &MemKeeper,
    fault: Fault,
) -> io::Result<()> {
    let (outcome, held) = made_again(report.alloc(), run, keeper, fault)?;
    compare(report, case, run, &outcome, Some(held.rows()))
}

/// Makes the run with a read that fails: it ends by that fault, and its answers and rows are those of a run over the
/// lines alone that were whole before that read.
fn check_read(
    report: &mut Report<'_>,
    case: Case<'_>,
    run: &Run,
    keeper: &MemKeeper,
    line: usize,
    fault: Fault,
) -> io::Result<()> {
    let failed = made_again(report.alloc(), run, keeper, fault)?;
    compare_read(report, case.at(line), run, keeper, fault, &failed)
}

/// Compares a run of which a read failed with a run over the lines that were whole before.
fn compare_read(
    report: &mut Report<'_>,
    place: Place<'_>,
    run: &Run,
    keeper: &MemKeeper,
    fault: Fault,
    failed: &(Outcome, MemKeeper),
) -> io::Result<()> {
    compare_status(report, place, failed.0.status.as_str(), "input fault")?;
    let other = made_over(report.alloc(), run, keeper, read_before(run, fault))?;
    let answers = other.0.output.written();
    compare_stopped(report, place, failed, answers, other.1.rows())
}

/// The outcome of a run over another input, and the keeper.
fn made_over(
    alloc: Global,
    run: &Run,
    keeper: &MemKeeper,
    input: &[u8],
) -> io::Result<(Outcome, MemKeeper)> {
    made_in_memory(alloc, run, copy_of(alloc, keeper)?, input, None)
}

/// Compares what a run answered that was stopped, and the rows that are held then.
fn compare_stopped(
    report: &mut Report<'_>,
    place: Place<'_>,
    stopped: &(Outcome, MemKeeper),
    answers: &[u8],
    rows: &[Row],
) -> io::Result<()> {
    if stopped.0.output.written() != answers {
        report.fail(place, "the answers before the call that fails", "others")?;
    }
    if !are_same(stopped.1.rows(), rows) {
        report.fail(place, "the rows of the lines that were done", "others")?;
    }
    Ok(())
}

/// The lines of the input that are whole in the reads before the one that fails.
fn read_before(run: &Run, fault: Fault) -> &[u8] {
    let input = run.input.as_slice();
    let reads = usize::try_from(fault.number.saturating_sub(1)).unwrap_or(usize::MAX);
    let read = input
        .get(..reads.saturating_mul(run.piece))
        .unwrap_or(input);
    match read.iter().rposition(|byte| *byte == b'\n') {
        Some(place) => read.get(..=place).unwrap_or(read),
        None => &[],
    }
}

/// Makes the run with a write that fails: it ends by that fault. Each answer is one write, so those before it are
/// written, and the rows are those after its line.
fn check_write(
    report: &mut Report<'_>,
    case: Case<'_>,
    run: &Run,
    keeper: &MemKeeper,
    line: usize,
    fault: Fault,
) -> io::Result<()> {
    let failed = made_again(report.alloc(), run, keeper, fault)?;
    compare_write(report, case.at(line), run, keeper, fault.number, &failed)
}

/// Compares a run whose write of this number failed with a run of as many lines.
fn compare_write(
    report: &mut Report<'_>,
    place: Place<'_>,
    run: &Run,
    keeper: &MemKeeper,
    number: u64,
    failed: &(Outcome, MemKeeper),
) -> io::Result<()> {
    compare_status(report, place, failed.0.status.as_str(), "output fault")?;
    let other = made_over(
        report.alloc(),
        run,
        keeper,
        first_lines(run.input.as_slice(), number),
    )?;
    let answers = first_lines(other.0.output.written(), number.saturating_sub(1));
    compare_stopped(report, place, failed, answers, other.1.rows())
}

/// Makes the run with a commit that fails, where each line makes one: the answer to that line says so, and the other
/// answers and the rows are those of a run without it.
fn check_commit(
    report: &mut Report<'_>,
    case: Case<'_>,
    run: &Run,
    keeper: &MemKeeper,
    line: usize,
    fault: Fault,
) -> io::Result<()> {
    let failed = made_again(report.alloc(), run, keeper, fault)?;
    let place = case.at(line);
    match refused_at(failed.0.output.written()) {
        Some(refused) if (refused as u64).saturating_add(1) == fault.number => {
            let other = made_without(report.alloc(), run, keeper, refused)?;
            compare_without(report, place, &failed, &other, refused)
        }
        _ => report.fail(place, "the line of this commit refused", "none or another"),
    }
}

/// The outcome of a run without the line at a place, and the keeper.
fn made_without(
    alloc: Global,
    run: &Run,
    keeper: &MemKeeper,
    place: usize,
) -> io::Result<(Outcome, MemKeeper)> {
    let rest = without_line(alloc, run.input.as_slice(), place)?;
    made_over(alloc, run, keeper, rest.as_slice())
}

/// Compares the answers but for the one at a place, and the rows, with those of the other run.
fn compare_without(
    report: &mut Report<'_>,
    place: Place<'_>,
    failed: &(Outcome, MemKeeper),
    other: &(Outcome, MemKeeper),
    refused: usize,
) -> io::Result<()> {
    let answers = without_line(report.alloc(), failed.0.output.written(), refused)?;
    if failed.0.status.as_str() != other.0.status.as_str()
        || answers.as_slice() != other.0.output.written()
    {
        report.fail(place, "the answers without the line", "others")?;
    }
    if !are_same(failed.1.rows(), other.1.rows()) {
        report.fail(place, "the rows without the line", "others")?;
    }
    Ok(())
}

/// The place of the answer that says that a change was not kept, if there is one.
fn refused_at(answers: &[u8]) -> Option<usize> {
    answers
        .split(|byte| *byte == b'\n')
        .position(|line| line == REFUSED)
}
