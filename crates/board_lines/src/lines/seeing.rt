//! A line looks at a key, and notes what it sees.
ghost use Rattle.board_steps.specs.Steps.Call.{Look};
ghost use Rattle.version_store.specs.declared.entry.Found.TheVariants.{Suspect};
ghost use Rattle.board_lines.specs.Replies.{Answers};
ghost use Rattle.board_lines.specs.Sights.{IsStopped, MayStop};

use super::Lines;
use crate::reply::Reply;
use attempts::LineState;
use circ_records::Key;
use read_set::{Name, PlanName};

impl<'p, 't, J: PlanName> Lines<'p, 't, J> {
    /// Gives what the worker's line sees at a key, and notes under which name, by one step of the
    /// board.
    pub fn look(&mut self, worker: u32, key: &Key) -> Reply<'t, J>
        ensures { Answers J.plan self.old (Look worker key.now) result self.new }
    {
        let Some(line) = self.in_hand(worker) else {
            return Reply::Idle;
        };
        let Some((state, row)) = self.row(line) else {
            return Reply::Idle;
        };
        let LineState::Running { .. } = state else {
            return Reply::Idle;
        };
        if row.notes.has(key) {
            return Reply::Idle;
        }
        let seen = match self.entries.see(key, line) {
            None => (Name::Base, None),
            Some((from, made)) => {
                if made.suspect {
                    self.stop(worker, line);
                    return Reply::Suspect { line: from };
                }
                let attempt = made.attempt;
                let name = Name::Made {
                    line: from,
                    attempt,
                };
                (name, Some(made.place))
            }
        };
        let (name, place) = seen;
        let alloc = *self.rows.allocator();
        let row = &mut self.rows[(line - self.plan.first()) as usize];
        match row.notes.add(alloc, &mut self.spare, key, name, place) {
            Ok(()) => Reply::Seen { name, place },
            Err(_) => Reply::Memory,
        }
    }

    /// Ends the attempt of a running line, which waits again.
    fn stop(&mut self, worker: u32, line: u64)
        requires { MayStop self.old worker line }
        ensures { IsStopped self.old line self.new }
    {
        self.attempts.stop(line);
        self.hands[worker as usize] = None;
    }
}
