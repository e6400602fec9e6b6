//! How far a request has got that goes through a list, such as that of a patron's loans.

use crate::effect::Draft;
use crate::known::Member;
use circ_records::Ids;
use sip_answer::{ItemIds, Reasons};

/// How far a renewal of all items has got.
#[derive(Drop)]
pub struct Renewals {
    pub writes: Draft,
    /// The patron, with the fees so far.
    pub member: Member,
    /// How many fees were made.
    pub made: u64,
    pub renewed: ItemIds,
    pub others: ItemIds,
    /// Why each of these isn't renewed.
    pub reasons: Reasons,
}

/// How far a payment has got.
#[derive(Drop)]
pub struct Payments {
    /// What is left of the money, in hundredths.
    pub left: u64,
    pub writes: Draft,
    /// The fees that were paid in full.
    pub closed: Ids,
}
