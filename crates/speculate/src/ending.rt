//! Whether a reply refuses a step, so that the worker has to end.

ghost use Rattle.std.specs.Prelude.{◌≡◌};
ghost use Rattle.speculate.specs.Ending.{ended_by};

use crate::steps::BoardFault;
use board_lines::Reply;
use read_set::PlanName;

/// Gives an error exactly if the reply refuses the step.
pub fn ended<J: PlanName>(reply: Reply<'_, J>) -> Result<(), BoardFault>
    ensures { result ≡ ended_by reply.entry }
{
    match reply {
        Reply::Attempts { line } => Err(BoardFault::Attempts { line }),
        Reply::ClockSpent => Err(BoardFault::ClockSpent),
        Reply::Memory => Err(BoardFault::Memory),
        _ => Ok(()),
    }
}
