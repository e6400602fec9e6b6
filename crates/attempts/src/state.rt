ghost use Rattle.std.specs.Prelude.{◌≡◌};
ghost use Rattle.attempts.specs.States.{is_live};

/// The state of a line.
#[derive(Clone, Copy, PartialEq, Eq)]
pub enum LineState {
    /// It waits for its first attempt, or for the next one.
    Waiting,
    /// A worker runs it, and looks at one key after the other.
    Running {
        worker: u32,
    },
    /// A worker has placed a part of what it writes.
    Placing {
        worker: u32,
    },
    /// All that it writes is placed. The stamp is the clock at the beginning of its last whole
    /// check, if there was one.
    Done {
        stamp: Option<u64>,
    },
    /// A worker compares the names that it noted, and has compared this many since the check began
    /// at the stamp.
    Checking {
        worker: u32,
        stamp: u64,
        compared: u64,
    },
    /// Its answer and its records are final.
    Committed,
}

impl LineState {
    /// True exactly if an attempt at the line goes on: it doesn't wait and isn't committed.
    pub fn is_live(self) -> bool
        ensures { result ≡ is_live self }
    {
        match self {
            LineState::Waiting | LineState::Committed => false,
            LineState::Running { .. }
            | LineState::Placing { .. }
            | LineState::Done { .. }
            | LineState::Checking { .. } => true,
        }
    }
}
