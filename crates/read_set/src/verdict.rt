//! A loan or a renewal that is asked for, and how its tests end.

use sip_answer::Reason;
use sip_reader::{Amount, Day, Id};

/// A loan or a renewal that is asked for.
#[derive(Drop)]
pub struct LoanRequest {
    pub patron: Id,
    pub item: Id,
    /// Whether someone else than the borrower may renew.
    pub third_party: bool,
    /// Whether most tests are skipped.
    pub forced: bool,
    /// The due day that a forced request names, if it names one.
    pub given: Option<Day>,
    /// Whether the user agreed to pay a rental.
    pub agreed: bool,
    /// What is charged in hundredths, 0 being nothing; if none, the media type's rental.
    pub price: Option<Amount>,
    /// Whether a checkout asks, and not a renewal.
    pub checkout: bool,
}

/// How the tests of a loan or a renewal end.
#[derive(Clone, Copy)]
pub enum Verdict {
    Made,
    /// Refused, for this reason.
    Refused(Reason),
}
