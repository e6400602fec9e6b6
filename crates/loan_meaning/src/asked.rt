//! What stays the same while the rule of a line runs.

ghost use Rattle.std.specs.Prelude.{◌≡◌};

use circ_policy::Policy;
use read_set::LoanRequest;
use sip_reader::Stamp;
use std::alloc::Global;

/// What stays the same while the rule of a line runs.
#[derive(Clone, Copy)]
pub struct LineContext<'p> {
    pub alloc: Global,
    pub policy: &'p Policy,
    /// Its number in the journal, which the ids of its fees contain.
    pub number: u64,
    /// The moment of its message.
    pub date: Stamp,
}

/// The same, and the loan or renewal for which the line asks.
#[derive(Drop)]
pub struct LoanContext<'p> {
    pub alloc: Global,
    pub policy: &'p Policy,
    /// The line's number in the journal, which the ids of its fees contain.
    pub number: u64,
    /// The moment of its message.
    pub date: Stamp,
    pub request: LoanRequest,
}

impl<'p> LineContext<'p> {
    /// The same, for what the line asks for.
    pub fn asking(&self, request: LoanRequest) -> LoanContext<'p>
        ensures policy { result.policy.now ≡ self.now.policy.now }
        ensures number { result.number ≡ self.now.number }
        ensures date { result.date ≡ self.now.date }
        ensures request { result.request ≡ request }
    {
        LoanContext {
            alloc: self.alloc,
            policy: self.policy,
            number: self.number,
            date: self.date,
            request,
        }
    }
}
