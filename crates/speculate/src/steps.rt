//! Steps of workers, and what stops a list of them.

ghost use Rattle.std.specs.Prelude.{◌≡◌};
ghost use Rattle.speculate.specs.declared.steps.BoardFault.TheVariants.{Memory};

use std::alloc::AllocError;

/// A step of a worker. Workers are numbered from 0; a line is given by its number in the journal.
#[derive(Clone, Copy, PartialEq, Eq)]
pub enum Step {
    /// The worker takes the line.
    Take { worker: u32, line: u64 },
    /// The worker looks at the key that its line in hand needs next.
    Look { worker: u32 },
    /// One act of the publication of the version of the worker's line in hand.
    Publish { worker: u32 },
    /// The worker compares the next noted name of the line.
    Check { worker: u32, line: u64 },
    /// The line is committed.
    Commit { line: u64 },
}

/// Why a step of the board was refused. It leaves the board as it was.
#[derive(Clone, Copy, PartialEq, Eq)]
pub enum BoardFault {
    /// The line has had all its attempts, 4,294,967,296 of them.
    Attempts { line: u64 },
    /// The clock is at its end, 18,446,744,073,709,551,615, and the step is a change.
    ClockSpent,
    /// Out of memory.
    Memory,
}

impl From<AllocError> for BoardFault {
    ghost from_gives = { λ _ e. e ≡ Memory };

    fn from(_refused: AllocError) -> BoardFault {
        BoardFault::Memory
    }
}

/// Where a list of steps stopped: how many of them were done, and why the next was refused.
#[derive(Clone, Copy, PartialEq, Eq)]
pub struct Halt {
    pub done: usize,
    pub fault: BoardFault,
}
