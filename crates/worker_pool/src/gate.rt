//! A hook that is called after certain steps of workers.

/// What a worker has just done with a line.
#[derive(Clone, Copy, PartialEq, Eq)]
pub enum Moment {
    /// It has the line in hand.
    Taken,
    /// The line's version is published.
    Whole,
    /// All notes of the line were compared, and none has changed.
    Checked,
    /// The line is committed.
    Committed,
}

/// A hook, called outside the lock after a step of a worker. While it doesn't return, only its
/// worker waits.
pub trait Gate {
    fn at(&self, worker: u32, line: u64, moment: Moment);
}

/// A gate that does nothing.
pub struct NoGate;

impl Gate for NoGate {
    fn at(&self, _worker: u32, _line: u64, _moment: Moment) {}
}
