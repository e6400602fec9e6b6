//! The board.

ghost use Rattle.std.specs.Prelude.{◌≡◌, ◌+◌, ◌-◌, ◌^◌, ◌≤◌, IfOk, length, option_copied, option_map};
ghost use Rattle.board_steps.specs.Choice.{IsChoice};
ghost use Rattle.board_steps.specs.Reached.{Reached};
ghost use Rattle.board_steps.specs.Steps.{opening};
ghost use Rattle.board_steps.specs.declared.TheConstants.{WORKERS_MAX};
ghost use Rattle.board_steps.specs.Steps.Call.{Check, Commit, Look, Publish, Take};
ghost use Rattle.journal_table.specs.declared.TheConstants.{LINE_LIMIT};
ghost use Rattle.speculate.specs.Choices.{Begins, chosen};
ghost use Rattle.board_lines.specs.Courses.{PublishesMore};
ghost use Rattle.board_lines.specs.Hands.{AreCounts, AreNotesOf, AreWorkers, IsHand};
ghost use Rattle.board_lines.specs.Acts.{IsPlacing};
ghost use Rattle.board_lines.specs.Notes.{contents_at};
ghost use Rattle.board_lines.specs.Replies.{Answers};

use crate::choice::Choice;
use crate::ready::{Mark, Ready};
use attempts::Counts;
use board_lines::{Hand, Lines, PlaceNotes, Reply};
use circ_records::Key;
use read_set::{Plan, PlanName};
use std::alloc::{AllocError, Global};
use std::marker::Model;
use version_store::Place;

/// The lines of a plan while workers run them, and which of them a free worker chooses. Each call
/// is one step of `board_steps`; it looks only at its own line and at those lines whose stamps it
/// makes invalid.
pub struct Board<'p, 't, J: PlanName> {
    pub(crate) lines: Lines<'p, 't, J>,
    ready: Ready,
}

impl<J: PlanName> Drop for Board<'_, '_, J> {
    fn drop(self) {
        let Board { lines: _, ready: _ } = self;
    }
}

impl<'p, 't, J: PlanName> Model for Board<'p, 't, J> {
    ghost use Rattle.std.specs.Coded.{codes};
    ghost use Rattle.std.specs.FinMap as fin;
    ghost use Rattle.board_steps.specs.Board as steps;

    ghost Value = { steps.Board };

    ghost coded = { Prim.hlevel (codes, fin.code) };

    ghost use Rattle.speculate.specs.Marks.{IsReady};

    ghost view = { λ b. b.lines };

    ghost invariant = { λ b. IsReady b.lines b.ready };
}

impl<'p, 't, J: PlanName> Board<'p, 't, J> {
    /// Makes the board of a plan for 1 to 64 workers: all lines wait for their first attempt.
    pub fn new(alloc: Global, plan: &'p Plan, workers: u32) -> Result<Board<'p, 't, J>, AllocError>
        requires named { plan.now ≡ J.plan }
        requires workers { (1 ≤ workers) × (workers ≤ WORKERS_MAX) }
        ensures { IfOk result (λ b. b ≡ opening J.plan workers 0 0) }
    {
        Board::starting(alloc, plan, workers, 0, 0)
    }

    /// Makes the same board, but each line's first attempt and the clock begin at these numbers,
    /// not at 0.
    pub fn starting(
        alloc: Global,
        plan: &'p Plan,
        workers: u32,
        attempt: u32,
        clock: u64,
    ) -> Result<Board<'p, 't, J>, AllocError>
        requires named { plan.now ≡ J.plan }
        requires workers { (1 ≤ workers) × (workers ≤ WORKERS_MAX) }
        ensures { IfOk result (λ b. b ≡ opening J.plan workers attempt clock) }
    {
        Ok(Board {
            lines: Lines::new(alloc, plan, workers, attempt, clock)?,
            ready: Ready::new(alloc, lines_of(plan))?,
        })
    }

    /// Gives the plan of which the board was made. The contract also gives `Reached`, which holds
    /// of every board that steps lead to.
    pub fn plan(&self) -> &'p Plan
        ensures plan { result.now ≡ J.plan }
        ensures reached { Reached J.plan self.now }
    {
        self.lines.plan()
    }

    /// A worker takes a waiting line, by one step of the board, whose reply says which attempt it
    /// is or why not.
    pub fn take(&mut self, worker: u32, line: u64) -> Reply<'t, J>
        ensures { Answers J.plan self.old (Take worker line) result self.new }
    {
        let plan = self.lines.plan();
        match self.lines.take(worker, line) {
            Reply::Taken { attempt } => {
                self.ready.put(position_of(plan, line), Mark::Nowhere);
                Reply::Taken { attempt }
            }
            reply => reply,
        }
    }

    /// Gives what the worker's line sees at a key, and notes it, by one step of the board.
    pub fn look(&mut self, worker: u32, key: &Key) -> Reply<'t, J>
        ensures { Answers J.plan self.old (Look worker key.now) result self.new }
    {
        let plan = self.lines.plan();
        let Some(hand) = self.lines.hand(worker) else {
            return Reply::Idle;
        };
        match self.lines.look(worker, key) {
            Reply::Suspect { line } => {
                self.ready.put(position_of(plan, hand.line), Mark::Waiting);
                Reply::Suspect { line }
            }
            reply => reply,
        }
    }

    /// Does one act of the publication, for the worker's line, of the version at a place, only if
    /// its line, attempt and notes are the board's.
    pub fn publish(&mut self, worker: u32, place: Place<'t, J>) -> Reply<'t, J>
        ensures { Answers J.plan self.old
            (Publish worker (contents_at place.entry)) result self.new }
    {
        let plan = self.lines.plan();
        let Some(hand) = self.lines.hand(worker) else {
            return Reply::Idle;
        };
        let reply = self.lines.publish(worker, place);
        self.ready.follow(position_of(plan, hand.line), &reply);
        reply
    }

    /// Does one more act of the publication that the worker's line is in, of the same version as
    /// the last act; None, and no change, if the line isn't being published. Compares no note
    /// again, and looks at no write that is placed.
    pub fn publish_more(&mut self, worker: u32) -> Option<Reply<'t, J>>
        ensures { PublishesMore J.plan self.old worker result self.new }
    {
        let plan = self.lines.plan();
        let Some(hand) = self.lines.hand(worker) else {
            return None;
        };
        let Some(reply) = self.lines.publish_more(worker) else {
            return None;
        };
        self.ready.follow(position_of(plan, hand.line), &reply);
        Some(reply)
    }

    /// Begins or continues the check of a line that is done, and compares one noted name by one
    /// step of the board.
    pub fn check(&mut self, worker: u32, line: u64) -> Reply<'t, J>
        ensures { Answers J.plan self.old (Check worker line) result self.new }
    {
        let plan = self.lines.plan();
        let begins = self.lines.hand(worker).is_none();
        let clock = self.lines.clock();
        match self.lines.check(worker, line) {
            Reply::Same => {
                if begins {
                    self.ready.put(position_of(plan, line), Mark::Checking);
                }
                Reply::Same
            }
            Reply::Whole => {
                self.ready.end_check(position_of(plan, line), begins);
                Reply::Whole
            }
            Reply::Changed { key, noted, found } => {
                let changes = self.lines.clock() != clock;
                self.ready.send_back(position_of(plan, line), changes);
                Reply::Changed { key, noted, found }
            }
            reply => reply,
        }
    }

    /// Commits the next line, only if no entry of an earlier line has changed since the line's
    /// stamp. Compares no notes.
    pub fn commit(&mut self, line: u64) -> Reply<'t, J>
        ensures { Answers J.plan self.old (Commit line) result self.new }
    {
        let plan = self.lines.plan();
        match self.lines.commit(line) {
            Reply::Committed => {
                self.ready.put(position_of(plan, line), Mark::Nowhere);
                Reply::Committed
            }
            reply => reply,
        }
    }

    /// Gives the line that the worker has in hand, with its attempt; None if it has none.
    pub fn hand(&self, worker: u32) -> Option<Hand>
        ensures { IsHand self.now worker result }
    {
        self.lines.hand(worker)
    }

    /// Gives what the worker's line in hand has noted; None if it has none.
    pub fn notes(&self, worker: u32) -> Option<&PlaceNotes<'t, J>>
        ensures { AreNotesOf J.plan self.now worker (option_copied result) }
    {
        self.lines.notes(worker)
    }

    /// Gives the place of the version that the worker's line in hand is publishing; None if it
    /// hasn't begun to.
    pub fn placing(&self, worker: u32) -> Option<Place<'t, J>>
        ensures { IsPlacing self.now worker (option_map contents_at result) }
    {
        self.lines.placing(worker)
    }

    /// Gives how many attempts were begun, how many of them failed, stopped or were committed, and
    /// how many are unfinished.
    pub fn counts(&self) -> Counts
        ensures { AreCounts self.now result }
    {
        self.lines.counts()
    }

    /// Gives how many workers the board was made for. They are numbered from 0, and only these have
    /// a line in hand.
    pub fn workers(&self) -> usize
        ensures count { result ≡ self.now.workers }
        ensures some { (1 ≤ result) × (result ≤ WORKERS_MAX) }
        ensures hands { AreWorkers self.now }
    {
        self.lines.workers()
    }

    /// Gives how many lines are committed.
    pub fn committed(&self) -> u64
        ensures { result ≡ self.now.committed }
    {
        self.lines.counts().commits
    }

    /// Gives the clock: its first value, and 1 more for each change of an entry.
    pub fn clock(&self) -> u64
        ensures { result ≡ self.now.clock }
    {
        self.lines.clock()
    }

    /// Chooses for a free worker: to commit the least uncommitted line, if it can commit; else to
    /// check the least line that is done and has no check, or none that is still valid; else to
    /// take the least line that waits.
    pub fn choose(&self) -> Choice
        ensures { IsChoice self.now (chosen result) }
    {
        let plan = self.lines.plan();
        let counts = self.lines.counts();
        let committed = counts.commits;
        if committed >= lines_of(plan) as u64 {
            return Choice::End;
        }
        // the committed lines are the first ones, and in none of the sets
        let next = committed as usize;
        if self.ready.checked.has(next) {
            return Choice::Commit(plan.first() + committed);
        }
        if let Some(position) = self.ready.unchecked.least_from(next) {
            return Choice::Check(plan.first() + position as u64);
        }
        if let Some(position) = self.ready.waiting.least_from(next) {
            return Choice::Take(plan.first() + position as u64);
        }
        Choice::Nothing
    }

    /// Makes the choice that `choose` gives, and the call that it names, for this worker; no call
    /// if it names none.
    pub fn begin(&mut self, worker: u32) -> (Choice, Option<Reply<'t, J>>)
        ensures choice { IsChoice self.old (chosen result.0) }
        ensures call { Begins J.plan self.old worker result.0 result.1 self.new }
    {
        let choice = self.choose();
        match choice {
            Choice::Commit(line) => (choice, Some(self.commit(line))),
            Choice::Check(line) => (choice, Some(self.check(worker, line))),
            Choice::Take(line) => (choice, Some(self.take(worker, line))),
            Choice::Nothing => (choice, None),
            Choice::End => (choice, None),
        }
    }
}

/// Gives how many lines a plan has.
pub fn lines_of(plan: &Plan) -> usize
    ensures lines { result ≡ length plan.now.readings }
    ensures few { result ≤ LINE_LIMIT }
    ensures numbered { plan.now.first + result ≤ 2 ^ 64 }
{
    plan.readings().len()
}

/// The position of a line, from 0 on.
fn position_of(plan: &Plan, line: u64) -> usize
    requires { plan.now.first ≤ line }
    ensures { result ≡ line - plan.now.first }
{
    (line - plan.first()) as usize
}
