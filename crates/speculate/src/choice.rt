//! What a free worker does next.

/// The choice of a free worker.
#[derive(Clone, Copy, PartialEq, Eq)]
pub enum Choice {
    /// Commit this line, the least uncommitted one.
    Commit(u64),
    /// Check this line, the least that is done and has no valid check.
    Check(u64),
    /// Take this line, the least that waits.
    Take(u64),
    /// Nothing to do until the line of another worker has made progress.
    Nothing,
    /// All lines are committed.
    End,
}
