/// How many attempts were begun, and how they ended.
#[derive(Clone, Copy, PartialEq, Eq)]
pub struct Counts {
    /// How often a line was taken, for its first attempt or a later one.
    pub takes: u64,
    /// How often a check found that a noted name had changed.
    pub failed: u64,
    /// How often a look met a suspect entry.
    pub stops: u64,
    /// How many lines are committed.
    pub commits: u64,
    /// How many lines are running, placing, done or being checked.
    pub live: u64,
}
