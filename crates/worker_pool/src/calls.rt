//! What is returned after one hold of the lock.

ghost use Rattle.std.specs.Prelude.{◌≡◌, option_copied};
ghost use Rattle.worker_pool.specs.Holds.{fault_in};

use board_lines::Reply;
use read_set::PlanName;
use speculate::{BoardFault, Choice};
use std::alloc::AllocError;

/// The first fault that was stored. All workers have to end.
#[derive(Clone, Copy)]
pub struct Left(pub BoardFault);

impl From<AllocError> for Left {
    fn from(_refused: AllocError) -> Left {
        Left(BoardFault::Memory)
    }
}

/// What a free worker has begun: its choice, with the board's reply to the call that the choice
/// names, if it names one.
pub type Begun<'t, J> = (Choice, Option<Reply<'t, J>>);

/// Gives the fault for which a reply refuses its call; None if there is no reply, or it refuses
/// nothing.
pub fn refusal<J: PlanName>(reply: Option<&Reply<'_, J>>) -> Option<BoardFault>
    ensures { result ≡ fault_in (option_copied reply.entry) }
{
    match reply {
        Some(Reply::Attempts { line }) => Some(BoardFault::Attempts { line: *line }),
        Some(Reply::ClockSpent) => Some(BoardFault::ClockSpent),
        Some(Reply::Memory) => Some(BoardFault::Memory),
        _ => None,
    }
}
