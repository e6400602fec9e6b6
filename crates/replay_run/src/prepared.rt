//! Inputs that no rule refuses. The journal borrows from their bytes.

use circ_policy::Policy;
use circ_records::Records;
use journal_table::Journal;
use read_set::Plan;

/// The policy, the records before the first line, and the lines. The requests of the lines are not
/// read yet.
#[derive(Drop)]
pub struct Sound<'i> {
    pub policy: Policy,
    pub base: Records,
    pub journal: Journal<'i>,
}

/// What a run begins with: the plan that the inputs make, and the journal that it is the plan of.
#[derive(Drop)]
pub struct Prepared<'i> {
    /// The policy, the records before the first line, and the reading of each line.
    pub plan: Plan,
    /// The lines, in the order of their numbers.
    pub journal: Journal<'i>,
}
