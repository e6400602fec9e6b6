//! The notes of a line are compared with the names that the line sees now.

ghost use Rattle.std.specs.Prelude.{◌≡◌, ◌+◌, ◌^◌, ◌<◌, IfSome, option_map, slice_get};
ghost use Rattle.std.specs.Bool.{Decides};
ghost use Rattle.board_steps.specs.Board.{live_of, row_at};
ghost use Rattle.board_steps.specs.Steps.Call.{Check};
ghost use Rattle.version_store.specs.declared.entry.Found.TheVariants.{Named};
ghost use Rattle.board_lines.specs.Hands.{notes_of};
ghost use Rattle.board_lines.specs.Notes.{key_and_name};
ghost use Rattle.board_lines.specs.Replies.{Answers};
ghost use Rattle.board_lines.specs.Sights.{IsCheck, IsOther, names_now};

use super::Lines;
use crate::reply::Reply;
use attempts::LineState;
use read_set::{Name, PlanName};
use version_store::Found;

impl<'p, 't, J: PlanName> Lines<'p, 't, J> {
    /// Compares one noted name of a line with the name that the line sees now, by one step of the
    /// board, and replies what it found. It begins the check, or goes on with it.
    pub fn check(&mut self, worker: u32, line: u64) -> Reply<'t, J>
        ensures { Answers J.plan self.old (Check worker line) result self.new }
    {
        let Some((stamp, compared)) = self.checking(worker, line) else {
            return Reply::Idle;
        };
        let Some((noted, found)) = self.names_at(line, compared) else {
            // all names matched: the line is done again, with the stamp of this check
            self.attempts
                .go_on(line, LineState::Done { stamp: Some(stamp) });
            self.hands[worker as usize] = None;
            return Reply::Whole;
        };
        if is_named(found, noted) {
            let compared = compared + 1;
            let state = LineState::Checking {
                worker,
                stamp,
                compared,
            };
            self.attempts.go_on(line, state);
            self.hands[worker as usize] = Some(line);
            return Reply::Same;
        }
        self.send_back(worker, line, compared, noted, found)
    }

    /// The stamp of the worker's check of a line, and how many notes it has compared: a check that
    /// goes on, or one that a worker with nothing in hand begins now.
    fn checking(&self, worker: u32, line: u64) -> Option<(u64, u64)>
        ensures { IsCheck self.now worker line result }
    {
        if worker as usize >= self.hands.len() {
            return None;
        }
        let Some(state) = self.attempts.state(line) else {
            return None;
        };
        if let LineState::Checking {
            worker: holder,
            stamp,
            compared,
        } = state
        {
            if holder != worker {
                return None;
            }
            return Some((stamp, compared));
        }
        let LineState::Done { .. } = state else {
            return None;
        };
        let None = self.in_hand(worker) else {
            return None;
        };
        Some((self.clock, 0))
    }

    /// The name of the i-th note, from 0, of a line of which an attempt goes on, and the name that
    /// the line sees at its key now; None past the last.
    fn names_at(&self, line: u64, i: u64) -> Option<(Name, Found)>
        requires { live_of (row_at self.now line).state ≡ 1 }
        ensures names { result ≡ option_map (names_now self.now line)
            (option_map key_and_name (slice_get (notes_of (row_at self.now line).state) i)) }
        ensures few { IfSome result (λ names. i + 1 < 2 ^ 64) }
    {
        let Some((_, row)) = self.row(line) else {
            return None;
        };
        if i >= row.notes.len() as u64 {
            return None;
        }
        let Some(note) = row.notes.get(i as usize) else {
            return None;
        };
        Some((note.name, self.entries.name(&note.key, line)))
    }

    /// The name of the i-th note isn't that of the visible entry: the line waits again, and its
    /// entries become suspect. The reply gets the note's key.
    fn send_back(
        &mut self,
        worker: u32,
        line: u64,
        i: u64,
        noted: Name,
        found: Found,
    ) -> Reply<'t, J>
        requires { IsOther self.old worker line i noted found }
        ensures { Answers J.plan self.old (Check worker line) result self.new }
    {
        if self.keys_of(line, 0).is_none() {
            let row = &mut self.rows[(line - self.plan.first()) as usize];
            let Some(key) = row.notes.take_key(&mut self.spare, i as usize) else {
                unreachable!()
            };
            self.attempts.fail(line);
            self.hands[worker as usize] = None;
            return Reply::Changed { key, noted, found };
        }
        if self.clock == u64::MAX {
            return Reply::ClockSpent;
        }
        self.entries.suspect_all(line);
        self.clock += 1;
        let row = &mut self.rows[(line - self.plan.first()) as usize];
        row.changed = self.clock;
        let Some(key) = row.notes.take_key(&mut self.spare, i as usize) else {
            unreachable!()
        };
        self.attempts.fail(line);
        self.hands[worker as usize] = None;
        Reply::Changed { key, noted, found }
    }
}

/// Whether what is found is a name; a suspect entry equals none.
fn is_named(found: Found, noted: Name) -> bool
    ensures { Decides result (found ≡ Named noted) }
{
    match found {
        Found::Named(name) => name == noted,
        Found::Suspect { .. } => false,
    }
}
