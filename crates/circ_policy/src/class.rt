//! The limits of a class of patrons.

use sip_reader::Amount;

/// What the patrons of one class may do.
#[derive(Clone, Copy)]
pub struct Class {
    /// A patron with this number of loans borrows nothing more.
    pub max_loans: u32,
    /// A patron who owes more than this borrows nothing more.
    pub max_fees: Amount,
    /// A loan with this number of renewals isn't renewed again.
    pub max_renewals: u32,
}
