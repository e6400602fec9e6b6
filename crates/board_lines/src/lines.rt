//! The lines of a board: what is stored of each, which worker has it in hand, and how work on a
//! line begins and ends.

ghost use Rattle.std.specs.Prelude.{◌≡◌, IfOk, None, option_copied, ◌≤◌, map, replicate};
ghost use Rattle.board_steps.specs.Reached.{Reached};
ghost use Rattle.board_steps.specs.Steps.{opening};
ghost use Rattle.board_steps.specs.Steps.Call.{Commit, Take};
ghost use Rattle.board_steps.specs.declared.TheConstants.{WORKERS_MAX};
ghost use Rattle.board_lines.specs.Hands.{AreCounts, AreNotesOf, AreWorkers, IsHand, IsInHand};
ghost use Rattle.board_lines.specs.Replies.{Answers};
ghost use Rattle.board_lines.specs.Parts.{IsRow, no_notes, row_shown};

mod checking;
mod committed;
mod publishing;
mod seeing;

use crate::hand::Hand;
use crate::notes::{PlaceNotes, Spare};
use crate::reply::Reply;
use crate::row::LineRow;
use attempts::{AttemptTable, Counts, LineState};
use read_set::{Plan, PlanName};
use std::alloc::{AllocError, Global};
use std::marker::Model;
use version_store::EntryStore;

/// The lines of a plan while workers run them. Each value is a state that some steps lead to.
pub struct Lines<'p, 't, J: PlanName> {
    plan: &'p Plan,
    attempts: AttemptTable,
    entries: EntryStore<'t, J>,
    rows: Vec<LineRow<'t, J>>,
    /// Memory for the notes of the next line that is run.
    spare: Spare<'t, J>,
    /// The line that each worker has in hand.
    hands: Vec<Option<u64>>,
    clock: u64,
    /// The clock at the last change of an entry of a committed line.
    latest: u64,
}

impl<J: PlanName> Drop for Lines<'_, '_, J> {
    fn drop(self) {
        let Lines {
            plan: _,
            attempts: _,
            entries: _,
            rows: _,
            spare: _,
            hands: _,
            clock: _,
            latest: _,
        } = self;
    }
}

impl<'p, 't, J: PlanName> Model for Lines<'p, 't, J> {
    ghost use Rattle.std.specs.Prelude.{◌≡◌, map};
    ghost use Rattle.std.specs.Coded.{codes};
    ghost use Rattle.std.specs.FinMap as fin;
    ghost use Rattle.board_steps.specs.Board as steps;

    ghost Value = { steps.Board };

    ghost coded = { Prim.hlevel (codes, fin.code) };

    ghost use Rattle.board_lines.specs.Parts.{IsKept, board_of, row_shown};

    ghost view = { λ b. board_of b.plan.now.base (record { states = b.attempts; store = b.entries; rows = map row_shown b.rows.items; hands = b.hands.items; clock = b.clock; latest = b.latest }) };

    ghost invariant = { λ b. (b.plan.now ≡ J.plan) × IsKept J.plan (record { states = b.attempts; store = b.entries; rows = map row_shown b.rows.items; hands = b.hands.items; clock = b.clock; latest = b.latest }) };
}

impl<'p, 't, J: PlanName> Lines<'p, 't, J> {
    /// Makes the lines of a plan, all waiting, for this many workers. The first attempt of each
    /// line has the number `attempt`, and the clock begins at `clock`.
    pub fn new(
        alloc: Global,
        plan: &'p Plan,
        workers: u32,
        attempt: u32,
        clock: u64,
    ) -> Result<Lines<'p, 't, J>, AllocError>
        requires named { plan.now ≡ J.plan }
        requires workers { (1 ≤ workers) × (workers ≤ WORKERS_MAX) }
        ensures { IfOk result (λ b. b ≡ opening J.plan workers attempt clock) }
    {
        let lines = plan.readings().len();
        Ok(Lines {
            plan,
            attempts: AttemptTable::new(alloc, plan.first(), lines as u32, attempt)?,
            entries: EntryStore::new(alloc, plan.first(), lines)?,
            rows: rows_of(alloc, lines)?,
            spare: Spare::new(),
            hands: hands_of(alloc, workers)?,
            clock,
            latest: 0,
        })
    }

    /// Gives the plan of which the board was made. The contract also gives `Reached`, which holds
    /// of every board that steps lead to.
    pub fn plan(&self) -> &'p Plan
        ensures plan { result.now ≡ J.plan }
        ensures reached { Reached J.plan self.now }
    {
        self.plan
    }

    /// A worker takes a waiting line, by one step of the board, whose reply says which attempt it
    /// is or why not.
    pub fn take(&mut self, worker: u32, line: u64) -> Reply<'t, J>
        ensures { Answers J.plan self.old (Take worker line) result self.new }
    {
        let hand = worker as usize;
        if hand >= self.hands.len() || self.hands[hand].is_some() {
            return Reply::Idle;
        }
        let Some(state) = self.attempts.state(line) else {
            return Reply::Idle;
        };
        let LineState::Waiting = state else {
            return Reply::Idle;
        };
        let Some(attempt) = self.attempts.take(line, worker) else {
            return Reply::Attempts { line };
        };
        let row = &mut self.rows[(line - self.plan.first()) as usize];
        row.notes.clear(&mut self.spare);
        self.hands[hand] = Some(line);
        Reply::Taken { attempt }
    }

    /// Commits the next line, only if no entry of an earlier line has changed since the line's
    /// stamp. Compares no notes.
    pub fn commit(&mut self, line: u64) -> Reply<'t, J>
        ensures { Answers J.plan self.old (Commit line) result self.new }
    {
        let Some(state) = self.attempts.state(line) else {
            return Reply::Idle;
        };
        if let LineState::Committed = state {
            return Reply::Idle;
        }
        let position = line - self.plan.first();
        if position != self.attempts.counts().commits {
            return Reply::Later;
        }
        let LineState::Done { stamp } = state else {
            return Reply::Later;
        };
        let Some(stamp) = stamp else {
            return Reply::Later;
        };
        if stamp < self.latest {
            return Reply::Later;
        }
        // the notes of a committed line are never read again
        let row = &mut self.rows[position as usize];
        row.notes.clear(&mut self.spare);
        let changed = row.changed;
        self.attempts.commit(line);
        self.latest = self.latest.max(changed);
        Reply::Committed
    }

    /// The line that a worker has in hand.
    fn in_hand(&self, worker: u32) -> Option<u64>
        ensures { IsInHand self.now worker result }
    {
        let hand = worker as usize;
        if hand >= self.hands.len() {
            return None;
        }
        self.hands[hand]
    }

    /// Gives the line that a worker has in hand, with its attempt; None if it has none.
    pub fn hand(&self, worker: u32) -> Option<Hand>
        ensures { IsHand self.now worker result }
    {
        let Some(line) = self.in_hand(worker) else {
            return None;
        };
        let Some(attempt) = self.attempts.newest(line) else {
            return None;
        };
        Some(Hand { line, attempt })
    }

    /// Gives what the line that a worker has in hand has noted; None if it has none.
    pub fn notes(&self, worker: u32) -> Option<&PlaceNotes<'t, J>>
        ensures { AreNotesOf J.plan self.now worker (option_copied result) }
    {
        let Some(line) = self.in_hand(worker) else {
            return None;
        };
        let Some((_, row)) = self.row(line) else {
            return None;
        };
        Some(&row.notes)
    }

    /// The state of a line, and its row; None if there is no such line.
    fn row(&self, line: u64) -> Option<(LineState, &LineRow<'t, J>)>
        ensures { IsRow J.plan self.now line result }
    {
        let Some(state) = self.attempts.state(line) else {
            return None;
        };
        let row = &self.rows[(line - self.plan.first()) as usize];
        Some((state, row))
    }

    /// Gives how many attempts were begun, how many of them failed, stopped or were committed, and
    /// how many are unfinished.
    pub fn counts(&self) -> Counts
        ensures { AreCounts self.now result }
    {
        self.attempts.counts()
    }

    /// Gives how many workers the board was made for. Only these have a line in hand.
    pub fn workers(&self) -> usize
        ensures count { result ≡ self.now.workers }
        ensures hands { AreWorkers self.now }
    {
        self.hands.len()
    }

    /// Gives the clock: its first value, and 1 more for each change of an entry.
    pub fn clock(&self) -> u64
        ensures { result ≡ self.now.clock }
    {
        self.clock
    }
}

/// Rows of lines that never ran.
fn rows_of<'t, J: PlanName>(alloc: Global, lines: usize) -> Result<Vec<LineRow<'t, J>>, AllocError>
    ensures { IfOk result (λ v. map row_shown v.items ≡ replicate lines no_notes) }
{
    let mut rows = Vec::with_capacity(alloc, lines)?;
    for _i in 0..lines {
        rows.push(LineRow::new())?;
    }
    Ok(rows)
}

/// Hands, one for each worker, without a line.
fn hands_of(alloc: Global, workers: u32) -> Result<Vec<Option<u64>>, AllocError>
    ensures { IfOk result (λ v. v.items ≡ replicate workers None) }
{
    vec![in alloc; None; workers as usize]
}
