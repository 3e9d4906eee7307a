ghost use Rattle.std.specs.Prelude.{◌≡◌, IfOk};
ghost use Rattle.book_texts.specs.AnswerText.{answer_bytes, answer_members};
ghost use Rattle.book_texts.specs.Fields.{members_of};

use crate::accounts::account_add;
use crate::commodities::commodity_add;
use crate::fields::Fields;
use crate::history::status;
use crate::posting::{edit, post};
use crate::prices::{price, price_set};
use crate::reconciliations::{listed_recons, reconciled};
use crate::reports::{gains, report};
use crate::schedules::{due, schedule_add, schedule_run};
use crate::statements::{import, line_add, listed_lines, listed_statements, match_auto};
use crate::voiding::listed_voided;
use book_command::{Answer, Word};
use book_commodity::{Bytes, OutOfMemory};
use std::alloc::{AllocError, Global};

/// The line that answers an accepted command, without its line feed; `version` is the one after the command.
/// The only error is out of memory.
pub fn answer_text(alloc: Global, answer: &Answer, version: u64) -> Result<Bytes, OutOfMemory>
    ensures { IfOk result (λ text. text ≡ answer_bytes answer.now version) }
{
    answer_fields(alloc, answer, version)?.line()
}

fn answer_fields(alloc: Global, answer: &Answer, version: u64) -> Result<Fields, AllocError>
    ensures { IfOk result (λ fields. members_of fields ≡ answer_members answer.now version) }
{
    match answer {
        Answer::BookCurrency => Fields::answered(alloc, Word::BookCurrency, version),
        Answer::CommodityAdd { commodity } => commodity_add(alloc, *commodity, version),
        Answer::AccountAdd { account } => account_add(alloc, *account, version),
        Answer::AccountEdit => Fields::answered(alloc, Word::AccountEdit, version),
        Answer::AccountDrop => Fields::answered(alloc, Word::AccountDrop, version),
        Answer::Post {
            transaction,
            splits,
            balances,
        } => post(alloc, *transaction, splits, balances, version),
        Answer::Edit {
            transaction: _,
            splits,
            balances,
        } => edit(alloc, splits, balances, version),
        Answer::Drop => Fields::answered(alloc, Word::Drop, version),
        Answer::Void => Fields::answered(alloc, Word::Void, version),
        Answer::Unvoid => Fields::answered(alloc, Word::Unvoid, version),
        Answer::Mark => Fields::answered(alloc, Word::Mark, version),
        Answer::PriceSet { price } => price_set(alloc, *price, version),
        Answer::PriceDrop => Fields::answered(alloc, Word::PriceDrop, version),
        Answer::Price { rate } => price(alloc, rate, version),
        Answer::Register { text } => report(alloc, Word::Register, text, version),
        Answer::Trial { text } => report(alloc, Word::Trial, text, version),
        Answer::Sheet { text } => report(alloc, Word::Sheet, text, version),
        Answer::Lots { text } => report(alloc, Word::Lots, text, version),
        Answer::Gains { gain } => gains(alloc, *gain, version),
        Answer::Income { text } => report(alloc, Word::Income, text, version),
        Answer::ScheduleAdd { schedule } => schedule_add(alloc, *schedule, version),
        Answer::ScheduleDrop => Fields::answered(alloc, Word::ScheduleDrop, version),
        Answer::ScheduleRun { transactions } => schedule_run(alloc, transactions, version),
        Answer::Bind => Fields::answered(alloc, Word::Bind, version),
        Answer::Import {
            statements,
            lines,
            seen,
        } => import(alloc, statements, lines, *seen, version),
        Answer::LineMatch => Fields::answered(alloc, Word::LineMatch, version),
        Answer::LineAdd {
            transaction,
            splits,
        } => line_add(alloc, *transaction, splits, version),
        Answer::LineDismiss => Fields::answered(alloc, Word::LineDismiss, version),
        Answer::LineReopen => Fields::answered(alloc, Word::LineReopen, version),
        Answer::MatchAuto { pairs } => match_auto(alloc, pairs, version),
        Answer::Reconcile {
            reconciliation,
            marked,
        } => reconciled(alloc, Word::Reconcile, *reconciliation, marked, version),
        Answer::ReconcileStatement {
            reconciliation,
            marked,
        } => reconciled(
            alloc,
            Word::ReconcileStatement,
            *reconciliation,
            marked,
            version,
        ),
        Answer::Lines { lines } => listed_lines(alloc, lines, version),
        Answer::Statements { statements } => listed_statements(alloc, statements, version),
        Answer::Recons { recons } => listed_recons(alloc, recons, version),
        Answer::Voided { voided } => listed_voided(alloc, voided, version),
        Answer::Due { due: days } => due(alloc, days, version),
        Answer::Undo => Fields::answered(alloc, Word::Undo, version),
        Answer::Redo => Fields::answered(alloc, Word::Redo, version),
        Answer::Status {
            accounts,
            later,
            lines,
            past,
            recons,
            splits,
            transactions,
        } => {
            let counts = [
                ("accounts", *accounts),
                ("later", *later),
                ("lines", *lines),
                ("past", *past),
                ("recons", *recons),
                ("splits", *splits),
                ("transactions", *transactions),
            ];
            status(alloc, &counts, version)
        }
    }
}
