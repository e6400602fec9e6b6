//! The states of all lines.

ghost use Rattle.std.specs.Prelude.{◌≡◌, ◌+◌, ◌^◌, IfOk, IfSome, IfNone, IsSomeAnd, Some, true, length};
ghost use Rattle.attempts.specs.States.{Balanced, IsNumbered, all_waiting, is_live, newest_at, next_at, row_at, state_at};
ghost use Rattle.attempts.specs.Moves.{committed, failed, moved, stopped, taken};
ghost use Rattle.attempts.specs.declared.state.LineState.TheVariants as states;

use crate::counts::Counts;
use crate::state::LineState;
use std::alloc::{AllocError, Global};
use std::marker::Model;

/// How many attempts a line can have: their numbers are those of a u32.
const ATTEMPTS: u64 = 1 << 32;

/// A line: its state, and the number of its next attempt.
#[derive(Clone, Copy)]
pub struct AttemptRow {
    pub state: LineState,
    pub next: u64,
}

/// The state of each line of a journal, and the counts. A line is given by its number.
pub struct AttemptTable {
    first: u64,
    rows: Vec<AttemptRow>,
    counts: Counts,
}

impl Drop for AttemptTable {
    fn drop(self) {
        let AttemptTable {
            first: _,
            rows: _,
            counts: _,
        } = self;
    }
}

impl Model for AttemptTable {
    ghost use Rattle.attempts.specs.States.{States, IsCounted};

    ghost Value = { States };

    ghost view = { λ t. record { first = t.first; rows = t.rows.items; counts = t.counts } };

    ghost invariant = { λ t. IsCounted t.rows.items t.counts };
}

impl AttemptTable {
    /// Makes a table of this many lines from the number `first` on, all waiting, with nothing
    /// counted. The next attempt of each has the number `attempt`.
    pub fn new(
        alloc: Global,
        first: u64,
        lines: u32,
        attempt: u32,
    ) -> Result<AttemptTable, AllocError>
        ensures { IfOk result (λ t. t ≡ all_waiting first lines attempt) }
    {
        let row = AttemptRow {
            state: LineState::Waiting,
            next: attempt as u64,
        };
        Ok(AttemptTable {
            first,
            rows: vec![in alloc; row; lines as usize]?,
            counts: Counts {
                takes: 0,
                failed: 0,
                stops: 0,
                commits: 0,
                live: 0,
            },
        })
    }

    /// Gives the state of the line of a number; None if there is no such line.
    pub fn state(&self, line: u64) -> Option<LineState>
        ensures { result ≡ state_at self.now line }
    {
        match self.row(line) {
            Some(row) => Some(row.state),
            None => None,
        }
    }

    /// Gives the number of the newest attempt of a line that doesn't wait; None if it waits, or
    /// there is no such line.
    pub fn newest(&self, line: u64) -> Option<u32>
        ensures newest { result ≡ newest_at self.now line }
        ensures begun { IfSome result (λ attempt. next_at self.now line ≡ Some (attempt + 1)) }
    {
        let row = self.row(line)?;
        match row.state {
            LineState::Waiting => None,
            _ => Some((row.next - 1) as u32),
        }
    }

    /// Gives the counts of all calls so far, which balance.
    pub fn counts(&self) -> Counts
        ensures value { result ≡ self.now.counts }
        ensures balance { Balanced result }
    {
        let AttemptTable { counts, .. } = self;
        *counts
    }

    /// Gives how many lines there are.
    pub fn lines(&self) -> usize
        ensures { result ≡ length self.now.rows }
    {
        self.rows.len()
    }

    /// A worker takes a line that waits, and gets the number of the attempt, which no other take of
    /// this line gives. None, and nothing changes, if the greatest number, 4,294,967,295, was
    /// given.
    pub fn take(&mut self, line: u64, worker: u32) -> Option<u32>
        requires { state_at self.old line ≡ Some states.Waiting }
        ensures some { IfSome result
            (λ attempt. (next_at self.old line ≡ Some attempt)
            × (self.new ≡ taken self.old line worker)) }
        ensures none { IfNone result
            ((next_at self.old line ≡ Some (2 ^ 32)) × (self.new ≡ self.old)) }
    {
        let place = (line - self.first) as usize;
        let row = self.rows[place];
        if row.next == ATTEMPTS {
            return None;
        }
        self.rows[place] = AttemptRow {
            state: LineState::Running { worker },
            next: row.next + 1,
        };
        self.counts.takes += 1;
        self.counts.live += 1;
        Some(row.next as u32)
    }

    /// A line of which an attempt goes on enters this state of the same attempt; no other line
    /// changes.
    pub fn go_on(&mut self, line: u64, state: LineState)
        requires old { IsSomeAnd (state_at self.old line) (λ s. is_live s ≡ true) }
        requires new { is_live state ≡ true }
        ensures { self.new ≡ moved self.old line state }
    {
        let place = (line - self.first) as usize;
        self.rows[place].state = state;
    }

    /// A look met a suspect entry: the attempt ends, the line waits again, and no other line
    /// changes.
    pub fn stop(&mut self, line: u64)
        requires { IsSomeAnd (state_at self.old line) (λ s. is_live s ≡ true) }
        ensures { self.new ≡ stopped self.old line }
    {
        let place = (line - self.first) as usize;
        self.rows[place].state = LineState::Waiting;
        self.counts.stops += 1;
        self.counts.live -= 1;
    }

    /// A check found that a noted name had changed: the attempt ends, the line waits again, and no
    /// other line changes.
    pub fn fail(&mut self, line: u64)
        requires { IsSomeAnd (state_at self.old line) (λ s. is_live s ≡ true) }
        ensures { self.new ≡ failed self.old line }
    {
        let place = (line - self.first) as usize;
        self.rows[place].state = LineState::Waiting;
        self.counts.failed += 1;
        self.counts.live -= 1;
    }

    /// The line is committed, and no other line changes.
    pub fn commit(&mut self, line: u64)
        requires { IsSomeAnd (state_at self.old line) (λ s. is_live s ≡ true) }
        ensures { self.new ≡ committed self.old line }
    {
        let place = (line - self.first) as usize;
        self.rows[place].state = LineState::Committed;
        self.counts.commits += 1;
        self.counts.live -= 1;
    }

    /// The row of a line.
    fn row(&self, line: u64) -> Option<AttemptRow>
        ensures row { result ≡ row_at self.now line }
        ensures numbered { IfSome result IsNumbered }
    {
        if line < self.first {
            return None;
        }
        self.rows.get((line - self.first) as usize).copied()
    }
}
