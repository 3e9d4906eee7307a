ghost use Rattle.std.specs.Prelude.{◌≡◌, ◌<◌, ◌^◌, ◌⊎◌, ◌||◌, List, IfOk, IfErr, OnOk, OnErr, IsTrue};
ghost use Rattle.std.specs.Prelude.{option_map, true, None};
ghost use Rattle.std.specs.Option.{option_copied};
ghost use Rattle.book_free.specs.FreeSplits.{free_splits};
ghost use Rattle.book_free.specs.Kept.{Keeps as KeepsFree};
ghost use Rattle.book_keeper.specs.Keeping.{HasKeepCause};
ghost use Rattle.book_keeper.specs.Rows.{after_changes};
ghost use Rattle.book_keeper.specs.declared.row.Row.{Row as HeldRow};
ghost use Rattle.book_ledger.specs.Changes.{AreBounded};
ghost use Rattle.book_ledger.specs.Ledger.{Keeps, live_register};
ghost use Rattle.book_step.specs.Soundness.{IsSound};
ghost use Rattle.book_opening.specs.Opening.{OpenAs, StaysSure, WasRead};
ghost use Rattle.book_opening.specs.State.{State};
ghost use Rattle.book_report_answers.specs.LotsAsked.{lots_asked};
ghost use Rattle.book_turns.specs.Turned.{turned};
ghost use Rattle.book_turns.specs.Whole.{IsWhole, step_state};
ghost use Rattle.book_undo.specs.Book.{book_of};
ghost use Rattle.book_engine.specs.Acting.{HasActCause, IsUnchanged};
ghost use Rattle.book_engine.specs.Changed.{AreChanged, AreKeptUp, AreLeft, AreReckoned, HaveRisen, IsActed};
ghost use Rattle.book_engine.specs.Changed.{live_changes, live_lots};
ghost use Rattle.book_engine.specs.Books.{machine_of};
ghost use Rattle.book_engine.specs.Kept.{IsNew};
ghost use Rattle.book_engine.specs.Machine.{Done, step as step_from};
ghost use Rattle.book_engine.specs.Opening.{HasOpenCause, IsOpenedAs, KeepsRows, Opened, WasOpened, WhereOpened};
ghost use Rattle.book_engine.specs.Opening.{WhereRefused};
ghost use Rattle.book_engine.specs.Planned.{after, AreMovesOf, commits, HasMoves, HasNoLessRoom, HasRoomFor};
ghost use Rattle.book_engine.specs.Planned.{HasRoomForTurn, IsPlanFor, IsPlanned, IsPlanOf, IsRefusal, IsTurnNow};
ghost use Rattle.book_engine.specs.Planned.{with_moves};
ghost use Rattle.book_engine.specs.Standing.{OpensToReply, StandForKept, Stands};

use crate::migration::migrate;
use crate::opening::{begin, checked, open_error};
use crate::planning::plan_of;
use crate::{OpenError, Plan};
use book_command::What;
use book_commodity::{OutOfMemory, discard};
use book_free::{FreeSplits, Moves};
use book_keeper::{KeepError, Keeper};
use book_ledger::Registers;
use book_lots::Lots;
use book_match::AmountIndex;
use book_opening::{Saved, read_rows};
use book_register::Register;
use book_report_answers::{is_security, lots_asked};
use book_step::{Answer, Command, Refusal};
use book_turns::{Turn, make_turn};
use book_undo::{Edit, Plain};
use std::alloc::Global;
use std::marker::Model;

/// A machine with a whole book, whose rows a keeper holds. Of the earlier books and the later ones, which were taken
/// back, it keeps the edits that lead to them. Beside the book it keeps the registers of the accounts, and the splits
/// that may be matched with a bank line.
#[derive(Drop)]
pub struct Engine {
    pub(crate) alloc: Global,
    pub(crate) state: Saved,
    pub(crate) registers: Registers,
    pub(crate) free: FreeSplits,
    pub(crate) saved: bool,
}

impl Model for Engine {
    ghost use Rattle.std.specs.Coded.{codes};
    ghost use Rattle.book_undo.specs.contracts.edit.Edit as e;
    ghost use Rattle.book_engine.specs.Kept.{Kept, kept_by, IsKept};

    ghost Value = { Kept };

    ghost coded = { Prim.hlevel (codes, e.the_row.coded) };

    ghost view = { kept_by };

    ghost invariant = { IsKept };
}

impl Engine {
    /// The engine with the state as which the rows of the keeper open. Without rows it is the fresh state, whose rows
    /// the first change writes. Rows of format 1 are written anew in format 2, as one commit, once all memory is taken;
    /// others stay. The keeper's rows then stand for the engine's state. What is kept beside the book is made from it:
    /// the changes of a register are the number of its rows, and no lot is reckoned. At an error a keeper that still
    /// knows its rows has those of before; where the commit failed, the next one may find them in format 2.
    /// Keeper: the keeper failed, and its count of faults rose in this call.
    /// BadRows: the least key whose body is no spelling, that is needed and missing, or that is of a step which the
    /// head doesn't count.
    /// UnsoundBook: where all rows are spellings, the first key at which the rule of its kind is broken.
    pub fn open<K: Keeper>(alloc: Global, keeper: &mut K) -> Result<Engine, OpenError>
        ensures keeper { WasOpened K.Keeper keeper.old keeper.new }
        ensures unchanged { OnErr result (KeepsRows K.Keeper keeper.old keeper.new) }
        ensures refused_unchanged { WhereRefused result (WasRead K.Keeper keeper.old keeper.new) }
        ensures opened { IsTrue (K.sure keeper.new) → (rows : List HeldRow) → K.holds keeper.old rows
            → Opened rows result }
        ensures again { IsTrue (K.sure keeper.new) → (rows : List HeldRow) → K.holds keeper.old rows
            → (state : State) → OpenAs rows state → IsOpenedAs state result }
        ensures stand { IfOk result (λ engine. IsTrue (K.sure keeper.new)
            → (rows : List HeldRow) × K.holds keeper.new rows × StandForKept engine rows) }
        ensures known { WhereOpened result (StaysSure K.Keeper keeper.old keeper.new) }
        ensures sound { IfOk result (λ engine. IsSound (step_state engine.state)) }
        ensures new { IfOk result IsNew }
        ensures cause { HasOpenCause (K.faults keeper.old) (K.faults keeper.new) result }
    {
        match read_rows(alloc, keeper) {
            Ok(Some((format, state))) => match checked(alloc, state) {
                Ok(engine) => migrate(alloc, keeper, format, engine),
                Err(error) => Err(error),
            },
            Ok(None) => begin(alloc),
            Err(fault) => Err(open_error(fault)),
        }
    }

    /// The count of the changes so far.
    pub fn version(&self) -> u64
        ensures { result ≡ self.now.state.version }
    {
        self.state.version
    }

    /// The register of an account of the present book; `None` exactly where the book has no such account.
    pub fn register(&self, account: u64) -> Option<&Register>
        ensures rows { option_map (λ register. register.rows) (option_copied result)
            ≡ live_register self.now.state.book account }
        ensures changes { option_map (λ register. register.changes) (option_copied result)
            ≡ live_changes self.now account }
    {
        if self.state.plain.accounts.find(account).is_none() {
            return None;
        }
        self.known();
        self.registers.kept(account)
    }

    /// The lots that are kept of a security account of the present book, those of the first rows of its register; a
    /// report on them brings them up to the register. `None` exactly where the book has no such account, or it is no
    /// security account.
    pub fn lots(&self, account: u64) -> Option<&Lots>
        ensures { option_copied result ≡ live_lots self.now account }
    {
        if !is_security(&self.state.plain.accounts, account) {
            return None;
        }
        self.known();
        self.registers.lots(account)
    }

    /// The splits of the present book that a line of a bank statement may be matched with, by account and amount: those
    /// that aren't reconciled and that no line is matched with.
    pub fn free(&self) -> &AmountIndex
        ensures entries { result.now.entries ≡ free_splits self.now.state.book }
        ensures changes { result.now.changes ≡ self.now.free.index.changes }
    {
        self.known();
        self.free.index()
    }

    /// The present book.
    pub fn plain(&self) -> &Plain
        ensures plain { result.now ≡ self.now.plain }
        ensures book { book_of result.now ≡ self.now.state.book }
    {
        &self.state.plain
    }

    /// Tries all rules of the command, takes all memory that it needs, and makes the edit that leads back, the whole
    /// answer and the changes of the rows. The state stays as it is; where a report on the lots of an account is asked,
    /// they are brought up to its register. No room is taken away, so a plan that was made before in the same state
    /// still has all that it had. Refused by the first rule that the command breaks, or out of memory.
    pub fn prepare(&mut self, command: Command) -> Result<Plan, Refusal>
        ensures planned { IfOk result (IsPlanOf self.old.state self.old.saved command) }
        ensures moves { IfOk result (HasMoves self.old.state) }
        ensures room { IfOk result (HasRoomFor self.new) }
        ensures refused { IfErr result (IsRefusal (step_from (machine_of self.old.state) command)) }
        ensures spare { HasNoLessRoom self.old self.new }
        ensures earlier_room { (earlier : _) → HasRoomFor self.old earlier → HasRoomFor self.new earlier }
        ensures unchanged { IsUnchanged self.old self.new }
        ensures kept_up { AreKeptUp self.old self.new (lots_asked self.old.state.book.accounts command.what) }
        ensures reckoned { OnOk result
            (AreReckoned self.old self.new (lots_asked self.old.state.book.accounts command.what)) }
        ensures sound { IsSound (step_state self.new.state) }
    {
        if let Err(OutOfMemory) = self.reckon_for(&command.what) {
            return Err(discard(command, Refusal::OutOfMemory));
        }
        let plan = plan_of(
            self.alloc,
            &self.state,
            &self.registers,
            &self.free,
            self.saved,
            command,
        )?;
        match self.ready(plan) {
            Ok(plan) => Ok(plan),
            Err(OutOfMemory) => Err(Refusal::OutOfMemory),
        }
    }

    /// Adds to a plan what becomes of the free splits, and makes room for what it puts.
    fn ready(&mut self, plan: Plan) -> Result<Plan, OutOfMemory>
        requires { IsPlanned self.old.state self.old.saved plan }
        ensures plan { IfOk result (λ ready. ready ≡ with_moves ready.moves plan) }
        ensures moves { IfOk result (HasMoves self.old.state) }
        ensures room { IfOk result (HasRoomFor self.new) }
        ensures spare { HasNoLessRoom self.old self.new }
        ensures unchanged { IsUnchanged self.old self.new }
        ensures left { AreLeft self.old self.new }
        ensures sound { IsSound (step_state self.new.state) }
    {
        self.known();
        let moves = match self.moves_of(&plan) {
            Ok(moves) => moves,
            Err(OutOfMemory) => return Err(discard(plan, OutOfMemory)),
        };
        let plan = plan.with_moves(moves);
        match self.make_room(&plan) {
            Ok(()) => Ok(plan),
            Err(OutOfMemory) => Err(discard(plan, OutOfMemory)),
        }
    }

    /// Brings the lots of an account up to its register, where a report on them is asked.
    fn reckon_for(&mut self, what: &What) -> Result<(), OutOfMemory>
        ensures spare { HasNoLessRoom self.old self.new }
        ensures unchanged { IsUnchanged self.old self.new }
        ensures kept_up { AreKeptUp self.old self.new (lots_asked self.old.state.book.accounts what.now) }
        ensures reckoned { OnOk result
            (AreReckoned self.old self.new (lots_asked self.old.state.book.accounts what.now)) }
        ensures sound { IsSound (step_state self.new.state) }
    {
        match lots_asked(&self.state.plain.accounts, what) {
            Some(account) => self.registers.reckon(account),
            None => Ok(()),
        }
    }

    /// What becomes of the free splits with the turn of a plan, if it has one.
    fn moves_of(&self, plan: &Plan) -> Result<Moves, OutOfMemory>
        requires { IsPlanned self.now.state self.now.saved plan.now }
        ensures { IfOk result (λ moves. AreMovesOf self.now.state moves plan.now.turn) }
    {
        self.known();
        match &plan.turn {
            Some(turn) => self.free.moves(self.alloc, &self.state.plain, &turn.edit),
            None => Ok(Moves::none(self.alloc)),
        }
    }

    /// Makes room for what the turn of a plan puts, if it has one.
    fn make_room(&mut self, plan: &Plan) -> Result<(), OutOfMemory>
        ensures room { OnOk result (HasRoomFor self.new plan.now) }
        ensures spare { HasNoLessRoom self.old self.new }
        ensures unchanged { IsUnchanged self.old self.new }
        ensures left { AreLeft self.old self.new }
    {
        match &plan.turn {
            Some(turn) => self.make_room_for(&turn.edit, &plan.moves),
            None => Ok(()),
        }
    }

    /// Makes room for what an edit puts: things, rows of registers, free splits, and a step back or forth.
    fn make_room_for(&mut self, edit: &Edit, moves: &Moves) -> Result<(), OutOfMemory>
        ensures room { OnOk result (HasRoomForTurn self.new edit.now moves.now) }
        ensures spare { HasNoLessRoom self.old self.new }
        ensures unchanged { IsUnchanged self.old self.new }
        ensures left { AreLeft self.old self.new }
    {
        self.state.plain.reserve_for(edit)?;
        self.state.back.reserve(1)?;
        self.state.forth.reserve(1)?;
        self.registers.reserve_for(edit)?;
        self.free.reserve_for(moves)
    }

    /// Finishes what was prepared and hands out its answer: where the plan commits, the keeper makes its changes of
    /// rows, and then the state is changed, which can't fail and takes no memory: in each register only the rows that
    /// differ are taken out and put in, and in the index only the splits that are free before it or after it alone. An
    /// error is that of the commit, and then all is as before, the keeper's rows and the room of other plans too. A
    /// plan without a turn takes no room.
    pub fn finish<K: Keeper>(&mut self, keeper: &mut K, plan: Plan) -> Result<Answer, KeepError>
        requires made { IsPlanFor self.old.state self.old.saved plan }
        requires room { HasRoomFor self.old plan }
        ensures state { OnOk result (self.new.state ≡ after self.old.state plan) }
        ensures saved { OnOk result (self.new.saved ≡ (self.old.saved || commits plan)) }
        ensures answer { IfOk result (λ answer. answer ≡ plan.answer) }
        ensures changes { OnOk result (AreChanged self.old self.new) }
        ensures unchanged { OnErr result (IsUnchanged self.old self.new) }
        ensures left { OnErr result (AreLeft self.old self.new) }
        ensures commits { OnErr result (IsTrue (commits plan)) }
        ensures spare { OnErr result (HasNoLessRoom self.old self.new) }
        ensures asked { plan.turn ≡ None → HasNoLessRoom self.old self.new }
        ensures sound { IsSound (step_state self.new.state) }
        ensures path { K.path_given keeper.new ≡ K.path_given keeper.old }
        ensures honest { IsTrue (K.honest keeper.new) → IsTrue (K.honest keeper.old) }
        ensures sure { IsTrue (K.sure keeper.new) → IsTrue (K.sure keeper.old) }
        ensures stands { Stands K.Keeper keeper.old self.old → Stands K.Keeper keeper.new self.new }
        ensures rows { OnErr result (IsTrue (K.sure keeper.new) → (rows : List HeldRow) → K.holds keeper.old rows
            → K.holds keeper.new rows) }
        ensures leaves { OnErr result (IsTrue (K.honest keeper.new) → (rows : List HeldRow)
            → K.may_leave keeper.new rows → K.may_leave keeper.old rows ⊎ (IsTrue (K.sure keeper.old)
            × ((held : List HeldRow) → K.holds keeper.old held → rows ≡ after_changes plan.changes held))) }
        ensures cause { HasKeepCause (K.faults keeper.old) (K.faults keeper.new) result }
    {
        self.known();
        if !plan.commits() {
            return Ok(self.apply(plan));
        }
        match keeper.commit(plan.changes()) {
            Ok(()) => Ok(self.apply(plan)),
            Err(error) => Err(discard(plan, error)),
        }
    }

    /// What holds of every engine holds of this one.
    pub(crate) fn known(&self)
        ensures whole { IsWhole self.now.state self.now.saved }
        ensures registers { Keeps self.now.registers self.now.state.book }
        ensures free { KeepsFree self.now.free self.now.state.book }
        ensures bounded { AreBounded self.now.registers }
        ensures index { self.now.free.index.changes < 2 ^ 64 }
    {
        let _ = &self.saved;
        let _ = self.free.index().changes();
    }

    /// Makes the state that the plan leads to and hands out its answer. It can't fail and takes no memory.
    fn apply(&mut self, plan: Plan) -> Answer
        requires made { IsPlanFor self.old.state self.old.saved plan }
        requires room { HasRoomFor self.old plan }
        ensures state { self.new.state ≡ after self.old.state plan }
        ensures saved { self.new.saved ≡ (self.old.saved || commits plan) }
        ensures answer { result ≡ plan.answer }
        ensures changes { AreChanged self.old self.new }
        ensures asked { plan.turn ≡ None → HasNoLessRoom self.old self.new }
        ensures whole { IsWhole self.new.state self.new.saved }
    {
        self.known();
        let Plan {
            turn,
            version: _,
            answer,
            changes: _,
            moves,
        } = plan;
        match turn {
            Some(turn) => {
                self.take_turn(turn, &moves);
                answer
            }
            None => answer,
        }
    }

    /// Makes the state after a turn. It can't fail and takes no memory.
    fn take_turn(&mut self, turn: Turn, moves: &Moves)
        requires made { IsTurnNow self.old.state turn moves.now }
        requires room { HasRoomForTurn self.old turn.edit moves.now }
        ensures state { self.new.state ≡ turned turn self.old.state }
        ensures saved { self.new.saved ≡ true }
        ensures changes { AreChanged self.old self.new }
        ensures whole { IsWhole self.new.state self.new.saved }
    {
        self.registers.apply(&self.state.plain, &turn.edit);
        self.free.follow(moves);
        make_turn(self.alloc, &mut self.state, turn);
        self.saved = true;
    }

    /// Does the command: prepares it and finishes it.
    /// Keeper: the command breaks no rule and changes the state, but the keeper failed to keep the change.
    pub fn act<K: Keeper>(&mut self, keeper: &mut K, command: Command) -> Result<Answer, Refusal>
        ensures done { IfOk result (λ answer. step_from (machine_of self.old.state) command
            ≡ Done (machine_of self.new.state) answer) }
        ensures changes { OnOk result (HaveRisen self.old self.new) }
        ensures acted { OnOk result
            (IsActed self.old self.new (lots_asked self.old.state.book.accounts command.what)) }
        ensures kept_up { OnErr result
            (AreKeptUp self.old self.new (lots_asked self.old.state.book.accounts command.what)) }
        ensures unchanged { OnErr result (IsUnchanged self.old self.new) }
        ensures spare { OnErr result (HasNoLessRoom self.old self.new) }
        ensures asked { OnOk result (machine_of self.new.state ≡ machine_of self.old.state
            → HasNoLessRoom self.old self.new) }
        ensures sound { IsSound (step_state self.new.state) }
        ensures path { K.path_given keeper.new ≡ K.path_given keeper.old }
        ensures honest { IsTrue (K.honest keeper.new) → IsTrue (K.honest keeper.old) }
        ensures sure { IsTrue (K.sure keeper.new) → IsTrue (K.sure keeper.old) }
        ensures stands { Stands K.Keeper keeper.old self.old → Stands K.Keeper keeper.new self.new }
        ensures rows { OnErr result (IsTrue (K.sure keeper.new) → (rows : List HeldRow) → K.holds keeper.old rows
            → K.holds keeper.new rows) }
        ensures leaves { OnErr result (Stands K.Keeper keeper.old self.old → IsTrue (K.honest keeper.new)
            → (rows : List HeldRow) → K.may_leave keeper.new rows → K.may_leave keeper.old rows
            ⊎ OpensToReply (step_from (machine_of self.old.state) command) rows) }
        ensures cause { HasActCause (machine_of self.old.state) (step_from (machine_of self.old.state) command)
            (K.faults keeper.old) (K.faults keeper.new) result }
    {
        let plan = self.prepare(command)?;
        match self.finish(keeper, plan) {
            Ok(answer) => Ok(answer),
            Err(KeepError::Failed) => Err(Refusal::Keeper),
            Err(KeepError::OutOfMemory) => Err(Refusal::OutOfMemory),
        }
    }
}
