//! What a line writes is published, act by act.

ghost use Rattle.std.specs.Prelude.{◌≡◌, None, option_map, ℕ, suc, OnOk, OnErr, List};
ghost use Rattle.std.specs.Bool.{Decides};
ghost use Rattle.board_steps.specs.Board.{row_at, IsLine};
ghost use Rattle.board_steps.specs.Steps.{AllPlaced, Fits, HasRoom, IsNextLeft, IsNextWrite, IsVersion, MayPublish, lifted, placed};
ghost use Rattle.board_steps.specs.Steps.Call.{Publish};
ghost use Rattle.board_lines.specs.Notes.{contents_at};
ghost use Rattle.board_lines.specs.Replies.{Answers};
ghost use Rattle.circ_records.specs.declared.record.Record.{Record};
ghost use Rattle.read_set.specs.declared.notes.Note.{Note};
ghost use Rattle.board_steps.specs.Board.State.{Done};
ghost use Rattle.board_lines.specs.Acts.{IsPlacing, IsToPublish, notes_at};
ghost use Rattle.board_lines.specs.Courses.{FirstPlaced, FirstPlacedBut, IsUnderWayOf, PublishesMore};

use super::Lines;
use crate::acts::{PublishAct, act_of};
use crate::hand::Hand;
use crate::reply::Reply;
use crate::row::LineProgress;
use crate::same::same_notes;
use attempts::LineState;
use circ_records::Key;
use read_set::PlanName;
use std::alloc::AllocError;
use version_store::Place;

impl<'p, 't, J: PlanName> Lines<'p, 't, J> {
    /// Does the next act of publishing the version at a place, only if its line, attempt and notes
    /// are the board's. It compares all notes, and looks at the writes from the first on;
    /// `publish_more` goes on where the last act ended.
    pub fn publish(&mut self, worker: u32, place: Place<'t, J>) -> Reply<'t, J>
        ensures { Answers J.plan self.old
            (Publish worker (contents_at place.entry)) result self.new }
    {
        let Some(hand) = self.to_publish(worker) else {
            return Reply::Idle;
        };
        if !self.fits(hand, place) {
            return Reply::Stranger;
        }
        self.next_act(worker, hand.line, place, 0)
    }

    /// Does the next act of publishing the same version for the worker's line in hand; None, and no
    /// change, if that line isn't being published. It compares no note again, and looks at no write
    /// that is placed.
    pub fn publish_more(&mut self, worker: u32) -> Option<Reply<'t, J>>
        ensures { PublishesMore J.plan self.old worker result self.new }
    {
        let Some((line, place, count)) = self.under_way(worker) else {
            return None;
        };
        // a version says that its notes determine what it writes
        let _reads = place.show().reads();
        Some(self.next_act(worker, line, place, count))
    }

    /// The worker's line in hand, where it is being published, with the version of that
    /// publication. The first `count` writes of it are placed.
    fn under_way(&self, worker: u32) -> Option<(u64, Place<'t, J>, usize)>
        ensures { IsUnderWayOf self.now worker result }
    {
        let Some(line) = self.in_hand(worker) else {
            return None;
        };
        let Some((state, row)) = self.row(line) else {
            return None;
        };
        let LineState::Placing { .. } = state else {
            return None;
        };
        let Some(place) = row.version else {
            return None;
        };
        Some((line, place, row.course.placed))
    }

    /// Does the next act of the publication of the version at a place, which fits. Its first
    /// `count` writes are placed.
    fn next_act(
        &mut self,
        worker: u32,
        line: u64,
        place: Place<'t, J>,
        count: usize,
    ) -> Reply<'t, J>
        requires may { MayPublish self.old worker line (notes_at self.old line) }
        requires fits { Fits self.old line (notes_at self.old line) (contents_at place) }
        requires version { IsVersion J.plan (contents_at place) }
        requires placed { FirstPlaced (row_at self.old line).entries (contents_at place).attempt
            (contents_at place).writes count }
        ensures { Answers J.plan self.old
            (Publish worker (contents_at place.entry)) result self.new }
    {
        let act = act_of(&self.entries, line, place.show(), count);
        if let PublishAct::Finish = act {
            // all is published: the line is done, and not checked
            self.attempts.go_on(line, LineState::Done { stamp: None });
            let row = &mut self.rows[(line - self.plan.first()) as usize];
            row.version = Some(place);
            self.hands[worker as usize] = None;
            return Reply::Whole;
        }
        if self.clock == u64::MAX {
            return Reply::ClockSpent;
        }
        if let PublishAct::Lift(key) = act {
            self.lift(worker, line, key, place);
            return Reply::Lifted;
        }
        let PublishAct::Write(key, count) = act else {
            unreachable!()
        };
        match self.place(worker, line, key, place, count) {
            Ok(()) => Reply::Placed,
            Err(_) => Reply::Memory,
        }
    }

    /// Gives the version that the worker's line in hand is publishing; None if it isn't in state
    /// `Placing`.
    pub fn placing(&self, worker: u32) -> Option<Place<'t, J>>
        ensures { IsPlacing self.now worker (option_map contents_at result) }
    {
        let Some((_, place, _)) = self.under_way(worker) else {
            return None;
        };
        Some(place)
    }

    /// Gives the worker's line in hand with its attempt if it is to be published: it runs, or is
    /// being published.
    pub fn to_publish(&self, worker: u32) -> Option<Hand>
        ensures { IsToPublish self.now worker result }
    {
        let Some(hand) = self.hand(worker) else {
            return None;
        };
        let Some((state, _)) = self.row(hand.line) else {
            return None;
        };
        if let LineState::Running { .. } = state {
            return Some(hand);
        }
        let LineState::Placing { .. } = state else {
            return None;
        };
        Some(hand)
    }

    /// Whether the version at a place is of this line, attempt and notes. The contract adds
    /// `IsVersion`.
    fn fits(&self, hand: Hand, place: Place<'t, J>) -> bool
        requires there { IsLine self.now hand.line }
        requires attempt { suc hand.attempt ≡ (row_at self.now hand.line).next }
        ensures fits { (w : ℕ) (notes : List Note) → MayPublish self.now w hand.line notes
            → Decides result (Fits self.now hand.line notes (contents_at place.entry)) }
        ensures version { IsVersion J.plan (contents_at place.entry) }
    {
        let version = place.show();
        let reads = version.reads();
        if version.line() != hand.line {
            return false;
        }
        if version.attempt() != hand.attempt {
            return false;
        }
        let Some((_, row)) = self.row(hand.line) else {
            return false;
        };
        same_notes(self.plan, &row.notes, reads)
    }

    /// Places the next write, after which the first `count` are placed. Out of memory, nothing
    /// changes.
    fn place(
        &mut self,
        worker: u32,
        line: u64,
        key: &'t Key,
        place: Place<'t, J>,
        count: usize,
    ) -> Result<(), AllocError>
        requires may { MayPublish self.old worker line (notes_at self.old line) }
        requires fits { Fits self.old line (notes_at self.old line) (contents_at place) }
        requires version { IsVersion J.plan (contents_at place) }
        requires next { (value : Record) × IsNextWrite (row_at self.old line)
            (contents_at place) key.now value }
        requires first { FirstPlacedBut (row_at self.old line).entries (contents_at place).attempt
            (contents_at place).writes key.now count }
        requires room { HasRoom self.old }
        ensures placed { OnOk result
            (self.new ≡ placed self.old worker line (notes_at self.old line)
            (contents_at place.entry) key.now) }
        ensures same { OnErr result (self.new ≡ self.old) }
    {
        let alloc = *self.rows.allocator();
        let attempt = place.show().attempt();
        let Ok(()) = self.entries.place(alloc, line, attempt, key, place) else {
            return Err(AllocError);
        };
        self.attempts.go_on(line, LineState::Placing { worker });
        let clock = self.clock + 1;
        let row = &mut self.rows[(line - self.plan.first()) as usize];
        row.version = Some(place);
        row.course = LineProgress { placed: count };
        row.changed = clock;
        self.clock = clock;
        Ok(())
    }

    /// Removes the entry at the next key that an earlier attempt left.
    fn lift(&mut self, worker: u32, line: u64, key: &Key, place: Place<'t, J>)
        requires may { MayPublish self.old worker line (notes_at self.old line) }
        requires fits { Fits self.old line (notes_at self.old line) (contents_at place) }
        requires version { IsVersion J.plan (contents_at place) }
        requires all { AllPlaced (row_at self.old line) (contents_at place) }
        requires next { IsNextLeft (row_at self.old line) (contents_at place) key.now }
        requires room { HasRoom self.old }
        ensures { self.new ≡ lifted self.old worker line (notes_at self.old line)
            (contents_at place.entry) key.now }
    {
        let placed = place.show().writes().len();
        self.entries.lift(line, key);
        self.attempts.go_on(line, LineState::Placing { worker });
        let clock = self.clock + 1;
        let row = &mut self.rows[(line - self.plan.first()) as usize];
        row.version = Some(place);
        row.course = LineProgress { placed };
        row.changed = clock;
        self.clock = clock;
    }
}
