ghost use Rattle.std.specs.Prelude.{◌≡◌, ◌++◌, [], ◌∷◌, None, Some, IfErr, IfOk, map, true};
ghost use Rattle.std.specs.Option.{option_copied};
ghost use Rattle.book_commodity.specs.Rules.{ReportsFirst};
ghost use Rattle.book_commodity.specs.Table.{value_of};
ghost use Rattle.book_splits.specs.Balance.{splits_of};
ghost use Rattle.book_splits.specs.TransactionRules.{are_once, numbers_of};
ghost use Rattle.book_splits.specs.declared.split.Mark.TheVariants.{Cleared};
ghost use Rattle.book_undo.specs.Book.{book_of};
ghost use Rattle.book_finish.specs.Kept.{numbers_to_mark};
ghost use Rattle.book_ledger.specs.Ledger.{Keeps, register_of};
ghost use Rattle.book_reconcile.specs.Reconciliation.{FinishesBy, difference, is_mark};
ghost use Rattle.book_sound.specs.ReconciliationRules.{marked_numbers};
ghost use Rattle.book_sound.specs.Soundness.{IsSoundBook};
ghost use Rattle.book_command.specs.declared.answer.Answer.TheVariants.{Recons as ReconsAnswer};
ghost use Rattle.book_command.specs.declared.rule.Rule.TheVariants.{NoClosing};
ghost use Rattle.book_step.specs.BankLines.{account_asked};
ghost use Rattle.book_step.specs.Outcome.{StepsTo};
ghost use Rattle.book_step.specs.Reconciling.{IsFinish, differs, finish_rules, finished, is_to_mark, marked_under};
ghost use Rattle.book_step.specs.Reconciling.{reconcile, reconcile_statement, reconciling, recon_shown};
ghost use Rattle.book_step.specs.Reconciling.{recons_among, recons_of, too_many_reconciliations};
ghost use Rattle.book_step.specs.Reconciling.{unknown_statement};
ghost use Rattle.book_step.specs.Remarking.{remarked, remarking, remarking_one};
ghost use Rattle.book_step.specs.Schedules.{Finds};

use crate::accounts::known as known_account;
use crate::bank_questions::check_account;
use crate::importing::whole_edit;
use crate::present::Present;
use crate::{Answer, ReconShown, Refusal, Rule, Step};
use book_commodity::{Counted, Day, Kind, Many, OutOfMemory};
use book_finish::{marked_transactions, plan_finish_kept};
use book_ledger::Registers;
use book_reconcile::{FinishError, intact};
use book_register::Register;
use book_splits::{Mark, Recon, Split, Txn, Txns};
use book_statement::Held;
use book_undo::{Edit, Plain, Thing};
use std::alloc::Global;

const MAX_RECONS: usize = 100_000;

/// A reconciliation of the account stands in the book, under the next number: the account's cleared splits on or before
/// the day are reconciled under it. With those that were before, they sum to the closing balance, which is in smallest
/// units of the account's commodity. Broken with the difference where they don't.
pub(crate) fn reconcile(
    present: &Present,
    registers: &Registers,
    account: u64,
    day: Day,
    closing: i64,
) -> Result<Step, Refusal>
    requires { Keeps registers.now.entries present.now.book }
    ensures { StepsTo present.now (reconcile present.now account day closing) result }
{
    known_account(present, account)?;
    let (edit, marked) = match finish(present, registers, account, day, closing) {
        Ok(finished) => finished,
        Err(refusal) => return Err(refusal),
    };
    let answer = Answer::Reconcile {
        reconciliation: present.next,
        marked,
    };
    Step::changing(present, 1, edit, answer)
}

/// The same for the account of the statement of this number, at its day and with its closing balance. Broken where it
/// has none.
pub(crate) fn reconcile_statement(
    present: &Present,
    registers: &Registers,
    statement: u64,
) -> Result<Step, Refusal>
    requires { Keeps registers.now.entries present.now.book }
    ensures { StepsTo present.now (reconcile_statement present.now statement) result }
{
    let held = known_statement(present, statement)?;
    let closing = closing_balance(statement, held)?;
    let (edit, marked) = match finish(present, registers, held.account, held.day, closing) {
        Ok(finished) => finished,
        Err(refusal) => return Err(refusal),
    };
    let answer = Answer::ReconcileStatement {
        reconciliation: present.next,
        marked,
    };
    Step::changing(present, 1, edit, answer)
}

/// The statement of this number, which is one of the book's.
fn known_statement<'a>(present: &Present<'a>, number: u64) -> Result<&'a Held, Rule>
    ensures there { IfOk result (λ held. value_of number present.now.book.statements ≡ Some held.now) }
    ensures unknown { ReportsFirst (unknown_statement present.now.book.statements number ∷ []) result }
{
    match present.plain.statements.find(number) {
        Some(held) => Ok(held),
        None => Err(Rule::Unknown {
            kind: Kind::Statement,
            id: number,
        }),
    }
}

/// The closing balance of the statement of this number, which has one.
fn closing_balance(number: u64, held: &Held) -> Result<i64, Rule>
    ensures there { IfOk result (λ closing. held.now.closing ≡ Some closing) }
    ensures none { IfErr result (λ rule. (rule ≡ NoClosing number) × (held.now.closing ≡ None)) }
{
    match held.closing {
        Some(closing) => Ok(closing),
        None => Err(Rule::NoClosing { statement: number }),
    }
}

/// The edit that puts a reconciliation of the account, and the splits that it marks; and the numbers of these.
fn finish(
    present: &Present,
    registers: &Registers,
    account: u64,
    day: Day,
    closing: i64,
) -> Result<(Edit, Many<u64>), Refusal>
    requires { Keeps registers.now.entries present.now.book }
    ensures { Finds (finish_rules present.now.book account day closing)
        (IsFinish present.now.book present.now.next account day closing) result }
{
    let none = Register::new(present.alloc);
    let register = register_or(registers, account, &none);
    let recon = match planned(present, register, account, day, closing) {
        Ok(recon) => recon,
        Err(refusal) => return Err(refusal),
    };
    check_count(present)?;
    let marked = marked_numbers(present.alloc, &recon)?;
    let edit = reconciling(present, register, recon)?;
    Ok((edit, marked))
}

/// The register of the account; where none is kept, the one given, which is empty.
fn register_or<'a>(registers: &'a Registers, account: u64, none: &'a Register) -> &'a Register
    requires { none.now.rows ≡ [] }
    ensures { (book : _) → Keeps registers.now.entries book
        → result.now.rows ≡ register_of account book.transactions }
{
    match registers.kept(account) {
        Some(register) => register,
        None => none,
    }
}

/// The record of a reconciliation of the account, whose closing balance is what would be reconciled; else the
/// difference.
fn planned(
    present: &Present,
    register: &Register,
    account: u64,
    day: Day,
    closing: i64,
) -> Result<Recon, Refusal>
    requires { register.now.rows ≡ register_of account present.now.book.transactions }
    ensures { Finds (differs (difference account day closing present.now.book.transactions) ∷ [])
        (λ recon. recon ≡ finished present.now.book account day closing) result }
{
    match plan_finish(present, register, account, day, closing) {
        Ok(recon) => Ok(recon),
        Err(FinishError::Difference { by }) => Err(Refusal::Broken(Rule::Difference { by })),
        Err(FinishError::OutOfMemory) => Err(Refusal::OutOfMemory),
    }
}

/// What a reconciliation of the account answers, from its register.
fn plan_finish(
    present: &Present,
    register: &Register,
    account: u64,
    day: Day,
    closing: i64,
) -> Result<Recon, FinishError>
    requires { register.now.rows ≡ register_of account present.now.book.transactions }
    ensures { FinishesBy account day closing present.now.book.transactions result }
{
    plan_finish_kept(present.alloc, register, account, day, closing)
}

/// The book has room for one reconciliation more.
fn check_count(present: &Present) -> Result<(), Rule>
    ensures { ReportsFirst (too_many_reconciliations present.now.book.reconciliations ∷ []) result }
{
    if present.plain.reconciliations.len() >= MAX_RECONS {
        return Err(Rule::Limit {
            which: Counted::Recons,
            at: MAX_RECONS as u64,
        });
    }
    Ok(())
}

/// The numbers of the splits that the reconciliation marks, in its order.
fn marked_numbers(alloc: Global, recon: &Recon) -> Result<Many<u64>, OutOfMemory>
    ensures { IfOk result (λ numbers. numbers ≡ marked_numbers recon.now.marked) }
{
    let marked = recon.marked.as_slice();
    let numbers = marked.iter().map(|split| split.split).collect(alloc)?;
    Ok(Many::of(numbers))
}

/// The edit that puts the transactions whose splits the reconciliation marks, and the reconciliation under the next
/// number.
fn reconciling(present: &Present, register: &Register, recon: Recon) -> Result<Edit, OutOfMemory>
    requires { register.now.rows ≡ register_of recon.account present.now.book.transactions }
    ensures { IfOk result (λ edit. edit ≡ reconciling present.now.book present.now.next recon) }
{
    let marking = Marking {
        number: present.next,
        account: recon.account,
        upto: recon.day,
    };
    let numbers = transactions_to_mark(present, register, recon.account, recon.day)?;
    let mut edits = marking.edits(present, numbers.as_slice())?;
    edits.push(Edit::Put(present.next, Thing::Recon(recon)))?;
    Ok(whole_edit(edits))
}

/// The numbers of the transactions that have a cleared split on the account on or before the day, by number.
fn transactions_to_mark(
    present: &Present,
    register: &Register,
    account: u64,
    upto: Day,
) -> Result<Many<u64>, OutOfMemory>
    requires { register.now.rows ≡ register_of account present.now.book.transactions }
    ensures { IfOk result (λ numbers. numbers ≡ numbers_to_mark account upto present.now.book.transactions) }
{
    marked_transactions(present.alloc, register, upto)
}

/// The transaction of this number, if there is one.
pub(crate) fn transaction_of<'a>(present: &Present<'a>, number: u64) -> Option<&'a Txn>
    ensures { option_copied result ≡ value_of number present.now.book.transactions }
{
    present.plain.transactions.find(number)
}

/// What a reconciliation marks: the cleared splits of the account on or before the day, which become reconciled under
/// its number.
#[derive(Clone, Copy)]
struct Marking {
    number: u64,
    account: u64,
    upto: Day,
}

impl Marking {
    /// The edits that put the transactions with a split that it marks, whose numbers these are.
    fn edits(&self, present: &Present, numbers: &[u64]) -> Result<Many<Edit>, OutOfMemory>
        requires { numbers.now ≡ numbers_to_mark self.now.account self.now.upto present.now.book.transactions }
        ensures { IfOk result (λ edits. edits ≡ remarking (is_to_mark self.now.account self.now.upto)
            (marked_under self.now.number self.now.account self.now.upto) present.now.book.transactions) }
    {
        let mut edits = Many::new(present.alloc);
        for number in numbers {
            let found = transaction_of(present, *number);
            self.add_edit(present.alloc, &mut edits, *number, found)?;
        }
        Ok(edits)
    }

    /// Adds the edit that puts the transaction under the number, if there is one, with its splits marked.
    fn add_edit(
        &self,
        alloc: Global,
        edits: &mut Many<Edit>,
        number: u64,
        transaction: Option<&Txn>,
    ) -> Result<(), OutOfMemory>
        ensures { IfOk result (λ _. edits.new ≡ edits.old
            ++ remarking_one (marked_under self.now.number self.now.account self.now.upto) number
            (option_copied transaction.entry)) }
    {
        if let Some(transaction) = transaction {
            let marked = self.transaction(alloc, transaction)?;
            edits.push(Edit::Put(number, Thing::Txn(marked)))?;
        }
        Ok(())
    }

    /// Whether the split of a transaction of the day is marked.
    fn has(&self, day: Day, split: &Split) -> bool
        ensures { result ≡ is_to_mark self.now.account self.now.upto day split.now }
    {
        split.account == self.account && is_cleared(split.mark) && day <= self.upto
    }

    /// The transaction with its splits marked.
    fn transaction(&self, alloc: Global, transaction: &Txn) -> Result<Txn, OutOfMemory>
        ensures { IfOk result (λ marked. marked
            ≡ remarked (marked_under self.now.number self.now.account self.now.upto) transaction.now) }
    {
        transaction.with_splits(self.splits(alloc, transaction.day, transaction.splits.as_slice())?)
    }

    /// The splits of a transaction of the day, marked.
    fn splits(&self, alloc: Global, day: Day, splits: &[Split]) -> Result<Many<Split>, OutOfMemory>
        ensures { IfOk result (λ marked. marked
            ≡ map (marked_under self.now.number self.now.account self.now.upto day) splits.now) }
    {
        let mut marked = Many::new(alloc);
        for split in splits {
            marked.push(self.split(day, split)?)?;
        }
        Ok(marked)
    }

    /// The split of a transaction of the day: reconciled where it is marked.
    fn split(&self, day: Day, split: &Split) -> Result<Split, OutOfMemory>
        ensures { IfOk result (λ marked. marked
            ≡ marked_under self.now.number self.now.account self.now.upto day split.now) }
    {
        let copy = split.copy()?;
        if !self.has(day, split) {
            return Ok(copy);
        }
        Ok(Split {
            mark: Mark::Reconciled,
            recon: Some(self.number),
            ..copy
        })
    }
}

/// Whether it is the mark of a split that is cleared.
fn is_cleared(mark: Mark) -> bool
    ensures { result ≡ is_mark mark Cleared }
{
    mark == Mark::Cleared
}

/// The answer that shows the account's reconciliations, by number. Broken where the book has no account of this number;
/// out of memory.
pub fn recons_answer(alloc: Global, plain: &Plain, account: u64) -> Result<Answer, Refusal>
    requires { IsSoundBook (book_of plain.now) }
    ensures { Finds (account_asked (book_of plain.now) account)
        (λ answer. answer ≡ ReconsAnswer (recons_of account (book_of plain.now))) result }
{
    check_account(plain, account)?;
    let reconciliations = plain.reconciliations.as_slice();
    let recons = recons_of(alloc, &plain.transactions, account, reconciliations)?;
    Ok(Answer::Recons { recons })
}

/// Those of the reconciliations that are of the account, each with its number, in order.
fn recons_of(
    alloc: Global,
    transactions: &Txns,
    account: u64,
    reconciliations: &[(u64, Recon)],
) -> Result<Many<ReconShown>, OutOfMemory>
    requires { are_once (numbers_of (splits_of transactions.now.entries)) ≡ true }
    ensures { IfOk result (λ shown. shown
        ≡ recons_among transactions.now.entries account reconciliations.now) }
{
    let mut shown = Many::new(alloc);
    for (number, recon) in reconciliations {
        add_recon(&mut shown, transactions, account, *number, recon)?;
    }
    Ok(shown)
}

/// Adds the reconciliation with its number where it is one of the account.
fn add_recon(
    shown: &mut Many<ReconShown>,
    transactions: &Txns,
    account: u64,
    number: u64,
    recon: &Recon,
) -> Result<(), OutOfMemory>
    requires { are_once (numbers_of (splits_of transactions.now.entries)) ≡ true }
    ensures { IfOk result (λ _. shown.new ≡ shown.old
        ++ recons_among transactions.now.entries account ((number, recon.now) ∷ [])) }
{
    if recon.account == account {
        shown.push(recon_shown(transactions, number, recon))?;
    }
    Ok(())
}

/// The reconciliation with its number, and whether it is intact among the transactions.
fn recon_shown(transactions: &Txns, number: u64, recon: &Recon) -> ReconShown
    requires { are_once (numbers_of (splits_of transactions.now.entries)) ≡ true }
    ensures { result ≡ recon_shown transactions.now.entries (number, recon.now) }
{
    ReconShown {
        id: number,
        day: recon.day,
        opening: recon.opening,
        closing: recon.closing,
        marked: recon.marked.len() as u64,
        intact: intact(transactions, number, recon),
    }
}
