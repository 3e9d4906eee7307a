ghost use Rattle.std.specs.Prelude.{codes};
ghost use Rattle.book_json.specs.Members.{needed};
ghost use Rattle.book_json.specs.Reads.{rest, Gives};
ghost use Rattle.book_wire.specs.Commands.{command, what_of, word_form};

use crate::{
    accounts, commodities, posting, prices, reconciliations, reports, schedules, statements,
};
use book_command::{Command, What, Word, words};
use book_json::{Fault, Reading};

/// The command of a line, of its members, which are read to the end.
pub(crate) fn command(members: &mut Reading) -> Result<Command, Fault>
    ensures { Gives (command (rest members.old)) result (rest members.new) }
{
    let word = word(members)?;
    let at = members.optional("at")?;
    let what = what_of(word, members)?;
    members.end(Command { at, what })
}

/// The word of a line.
#[tactic(auto, unfolding(crate::specs::Commands::word_form))]
fn word(members: &mut Reading) -> Result<Word, Fault>
    ensures { Gives (needed word_form (codes "do") (rest members.old)) result (rest members.new) }
{
    members.word("do", words())
}

/// What the command of a word asks, of its members.
fn what_of(word: Word, members: &mut Reading) -> Result<What, Fault>
    ensures { Gives (what_of word (rest members.old)) result (rest members.new) }
{
    match word {
        Word::BookCurrency => Ok(What::Update(commodities::book_currency(members)?)),
        Word::CommodityAdd => Ok(What::Update(commodities::commodity_add(members)?)),
        Word::AccountAdd => Ok(What::Update(accounts::account_add(members)?)),
        Word::AccountEdit => Ok(What::Update(accounts::account_edit(members)?)),
        Word::AccountDrop => Ok(What::Update(accounts::account_drop(members)?)),
        Word::Post => Ok(What::Update(posting::post(members)?)),
        Word::Edit => Ok(What::Update(posting::edit(members)?)),
        Word::Drop => Ok(What::Update(posting::drop_transaction(members)?)),
        Word::Void => Ok(What::Update(posting::void(members)?)),
        Word::Unvoid => Ok(What::Update(posting::unvoid(members)?)),
        Word::Mark => Ok(What::Update(posting::mark(members)?)),
        Word::PriceSet => prices::price_set(members),
        Word::PriceDrop => prices::price_drop(members),
        Word::Price => prices::price(members),
        Word::Register => Ok(What::Report(reports::register(members)?)),
        Word::Trial => Ok(What::Report(reports::trial(members)?)),
        Word::Sheet => Ok(What::Report(reports::sheet(members)?)),
        Word::Income => Ok(What::Report(reports::income(members)?)),
        Word::Lots => Ok(What::Report(reports::lots(members)?)),
        Word::Gains => Ok(What::Report(reports::gains(members)?)),
        Word::ScheduleAdd => schedules::schedule_add(members),
        Word::ScheduleDrop => schedules::schedule_drop(members),
        Word::ScheduleRun => schedules::schedule_run(members),
        Word::Due => schedules::due(members),
        Word::Bind => statements::bind(members),
        Word::Import => statements::import(members),
        Word::LineMatch => statements::line_match(members),
        Word::LineAdd => statements::line_add(members),
        Word::LineDismiss => statements::line_dismiss(members),
        Word::LineReopen => statements::line_reopen(members),
        Word::MatchAuto => statements::match_auto(members),
        Word::Lines => statements::lines(members),
        Word::Statements => statements::listed_statements(members),
        Word::Reconcile => reconciliations::reconcile(members),
        Word::ReconcileStatement => reconciliations::reconcile_statement(members),
        Word::Recons => reconciliations::recons(members),
        Word::Voided => posting::voided(members),
        Word::Undo => Ok(What::Undo),
        Word::Redo => Ok(What::Redo),
        Word::Status => Ok(What::Status),
    }
}
