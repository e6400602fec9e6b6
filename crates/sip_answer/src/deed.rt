//! What a recorded response says was done.

use crate::named_items::NamedItems;
use sip_reader::{Amount, Day};

/// What a recorded response says was done, beside what the rules say. A line by the rules alone has
/// none.
pub enum Deed {
    /// Response 96: the message was asked for again, so nothing was done.
    NotTaken,
    /// Responses 10, 16, 20 and 38: whether what was asked for was done.
    Said(bool),
    /// Responses 12 and 30 whose ok is 0.
    Refused,
    /// Responses 12 and 30 whose ok is 1.
    Lent(ToldLoan),
    /// Response 66: the items that it names as renewed.
    Renewed(NamedItems),
}

impl Drop for Deed {
    fn drop(self) {
        match self {
            Deed::NotTaken => {}
            Deed::Said(_) => {}
            Deed::Refused => {}
            Deed::Lent(_) => {}
            Deed::Renewed(_) => {}
        }
    }
}

/// What a response that lends says of the loan.
#[derive(Clone, Copy)]
pub struct ToldLoan {
    /// The due day, if one can be read.
    pub due: Option<Day>,
    /// The rental in hundredths, if one is named; 0 is one.
    pub fee: Option<Amount>,
    /// Whether it says that a renewal was made.
    pub renewal: bool,
}
