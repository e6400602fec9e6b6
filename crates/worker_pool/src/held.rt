//! What the lock guards, and what is done while it is held once.

ghost use Rattle.std.specs.Prelude.{◌≡◌};
ghost use Rattle.std.specs.Option.{unwrap_or};
ghost use Rattle.board_steps.specs.Steps.Call.{Check, Look, Publish};
ghost use Rattle.board_lines.specs.Courses.{PublishesMore};
ghost use Rattle.board_lines.specs.Notes.{contents_at};
ghost use Rattle.board_lines.specs.Replies.{Answers};
ghost use Rattle.worker_pool.specs.Holds.{BeginsChosen, Holds, fault_in, fault_of};

use crate::calls::{Begun, Left, refusal};
use board_lines::Reply;
use circ_records::Key;
use read_set::PlanName;
use speculate::{Board, BoardFault};
use version_store::Place;

/// The board, and the first fault that was stored. Each method is one call of the board; if the
/// board refuses the call, the fault is stored. Once a fault is stored, a method makes no call, and
/// returns that fault.
#[derive(Drop)]
pub struct FusedBoard<'p, 't, J: PlanName> {
    pub board: Board<'p, 't, J>,
    pub left: Option<BoardFault>,
}

impl<'p, 't, J: PlanName> FusedBoard<'p, 't, J> {
    /// Chooses what a free worker does next, and does it, unless a fault was stored.
    pub fn begin(&mut self, worker: u32) -> Result<Begun<'t, J>, Left>
        ensures { Holds (BeginsChosen J.plan worker)
            (λ begun. fault_in begun.1) self.old result self.new }
    {
        if let Some(first) = self.left {
            return Err(Left(first));
        }
        let begun = self.board.begin(worker);
        self.left = refusal(begun.1.as_ref());
        match self.left {
            Some(fault) => Err(Left(fault)),
            None => Ok(begun),
        }
    }

    /// Gives what a worker's line sees at a key, and notes it, unless a fault was stored.
    pub fn look(&mut self, worker: u32, key: &Key) -> Result<Reply<'t, J>, Left>
        ensures { Holds (λ old. Answers J.plan old
            (Look worker key.now)) fault_of self.old result self.new }
    {
        if let Some(fault) = self.left {
            return Err(Left(fault));
        }
        let reply = self.board.look(worker, key);
        self.left = refusal(Some(&reply));
        match self.left {
            Some(fault) => Err(Left(fault)),
            None => Ok(reply),
        }
    }

    /// Does the first act of the publication of the version at a place, unless a fault was stored.
    pub fn publish(&mut self, worker: u32, place: Place<'t, J>) -> Result<Reply<'t, J>, Left>
        ensures { Holds (λ old. Answers J.plan old
            (Publish worker (contents_at place.entry))) fault_of self.old result self.new }
    {
        if let Some(fault) = self.left {
            return Err(Left(fault));
        }
        let reply = self.board.publish(worker, place);
        self.left = refusal(Some(&reply));
        match self.left {
            Some(fault) => Err(Left(fault)),
            None => Ok(reply),
        }
    }

    /// Does one more act of the publication that the worker's line is in; None, and no change, if
    /// the line isn't in one.
    pub fn publish_more(&mut self, worker: u32) -> Result<Option<Reply<'t, J>>, Left>
        ensures { Holds (λ old. PublishesMore J.plan old worker) fault_in self.old result self.new }
    {
        if let Some(fault) = self.left {
            return Err(Left(fault));
        }
        let reply = self.board.publish_more(worker);
        self.left = refusal(reply.as_ref());
        match self.left {
            Some(fault) => Err(Left(fault)),
            None => Ok(reply),
        }
    }

    /// Begins or continues the check of a line that is done, and compares one noted name, unless a
    /// fault was stored.
    pub fn check(&mut self, worker: u32, line: u64) -> Result<Reply<'t, J>, Left>
        ensures { Holds (λ old. Answers J.plan old
            (Check worker line)) fault_of self.old result self.new }
    {
        if let Some(fault) = self.left {
            return Err(Left(fault));
        }
        let reply = self.board.check(worker, line);
        self.left = refusal(Some(&reply));
        match self.left {
            Some(fault) => Err(Left(fault)),
            None => Ok(reply),
        }
    }

    /// Stores a fault, unless one was stored before, and changes nothing of the board.
    pub fn leave(&mut self, fault: BoardFault)
        ensures board { self.new.board ≡ self.old.board }
        ensures first { self.new.left ≡ Some (unwrap_or self.old.left fault) }
    {
        if self.left.is_none() {
            self.left = Some(fault);
        }
    }
}
