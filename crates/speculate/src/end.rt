//! A board on which all lines are committed, as the end of a run.

use crate::finished::Finished;
use circ_records::{Key, Record, Records};
use read_set::{Plan, PlanName};
use result_report::End;
use sip_answer::Answer;

impl<'t, J: PlanName> End<'t> for Finished<'_, 't, J> {
    ghost use Rattle.read_set.specs.Replay.{answer_of, last};
    ghost use Rattle.speculate.specs.BoardEnds.{attempt_on, entered_on};

    ghost planned = { λ _. J.plan };

    ghost answered = { λ _ line. answer_of J.plan line };

    ghost attempted = { attempt_on };

    ghost entered = { entered_on };

    ghost left = { λ _ key. last J.plan key };

    fn plan(&self) -> &Plan {
        self.board.plan()
    }

    /// The answer that the replay by one thread gives. It is in the table of versions, and outlives
    /// the board.
    fn answer(&self, line: u64) -> Option<&'t Answer> {
        let board = &self.board;
        let _plan = board.plan();
        board.lines.answer(line)
    }

    /// 0 for a line that isn't there.
    fn attempt(&self, line: u64) -> u32 {
        let numbers = Finished::plan(self).numbers();
        if line < numbers.start {
            return 0;
        }
        if numbers.end <= line {
            return 0;
        }
        let board = &self.board;
        board.lines.attempt(line)
    }

    fn keys_of(&self, line: u64, i: usize) -> Option<(&Key, u32)> {
        let board = &self.board;
        board.lines.keys_of(line, i)
    }

    /// The last record that the replay by one thread gives.
    fn final_of(&self, key: &Key) -> Option<&Record> {
        let board = &self.board;
        let _plan = board.plan();
        board.lines.value_of(key)
    }

    /// None: a board has no list of the last records.
    fn records(&self) -> Option<&'t Records> {
        None
    }
}
