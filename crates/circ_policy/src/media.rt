//! The terms of a type of media.

use crate::loan_days::LoanDays;
use sip_reader::Amount;

/// On which terms the items of one type of media are lent.
#[derive(Clone, Copy)]
pub struct Media {
    /// How many days a loan lasts; a due day that is closed then moves to the next open one.
    pub days: LoanDays,
    /// What a loan or a renewal costs.
    pub rental: Amount,
    /// What each day late costs.
    pub late: Amount,
    /// The greatest late fee.
    pub cap: Amount,
}
