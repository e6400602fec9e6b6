//! The results of the lines: the answers, attempts and entries of those that are committed, and the
//! record that is visible after the last line.

ghost use Rattle.std.specs.Prelude.{◌≡◌, ◌+◌, ◌^◌, ◌<◌, suc, length, option_copied, slice_get};
ghost use Rattle.std.specs.FinMap as fin;
ghost use Rattle.board_lines.specs.Committed.{committed_answer};
ghost use Rattle.board_steps.specs.Board.{IsCommitted, row_at, value_at};
ghost use Rattle.version_store.specs.Entries.{IsNamedAt};

use super::Lines;
use crate::reading::record_seen;
use attempts::LineState;
use circ_records::{Key, Record};
use read_set::PlanName;
use sip_answer::Answer;

impl<'p, 't, J: PlanName> Lines<'p, 't, J> {
    /// Gives the answer of a committed line, if it has one; None for any other line.
    pub fn answer(&self, line: u64) -> Option<&'t Answer>
        ensures { option_copied result ≡ committed_answer (row_at self.now line).state }
    {
        let Some((state, row)) = self.row(line) else {
            return None;
        };
        let LineState::Committed = state else {
            return None;
        };
        let Some(place) = row.version else {
            return None;
        };
        place.show().answer()
    }

    /// Gives which attempt at a line was committed, counted from 0.
    pub fn attempt(&self, line: u64) -> u32
        requires { IsCommitted (row_at self.now line).state }
        ensures { suc result ≡ (row_at self.now line).next }
    {
        let Some(attempt) = self.attempts.newest(line) else {
            unreachable!()
        };
        attempt
    }

    /// Gives the i-th key, from 0 and rising, at which a line has an entry, and the attempt of that
    /// entry; None after the last.
    pub fn keys_of(&self, line: u64, i: usize) -> Option<(&Key, u32)>
        ensures value { IsNamedAt
            (slice_get (fin.entries (row_at self.now line).entries) i) result }
        ensures few { length (fin.entries (row_at self.now line).entries) < 2 ^ 64 }
    {
        self.entries.keys_of(line, i)
    }

    /// Gives the record that is visible at a key after the last line; None if none is.
    pub fn value_of(&self, key: &Key) -> Option<&Record>
        ensures { option_copied result ≡ value_at J.plan (row_at self.now)
            (self.now.first + length self.now.rows) key.now }
    {
        let past = self.plan.numbers().end;
        let Some((_, made)) = self.entries.see(key, past) else {
            return self.plan.base(key);
        };
        record_seen(self.plan, key, Some(made.place))
    }
}
