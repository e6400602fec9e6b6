//! Whose records a request is about.

use sip_reader::{Act, Id};

/// The patron and the item that a request names.
pub fn named_by(act: &Act) -> (Option<&Id>, Option<&Id>) {
    match act {
        Act::BlockPatron(asked) => (Some(&asked.patron), None),
        Act::Checkin(asked) => (None, Some(&asked.item)),
        Act::Checkout(asked) => (Some(&asked.patron), Some(&asked.item)),
        Act::Hold(asked) => (Some(&asked.patron), Some(&asked.item)),
        Act::ItemStatus(asked) => (None, Some(&asked.item)),
        Act::PatronEnable(asked) => (Some(&asked.patron), None),
        Act::Renew(asked) => (Some(&asked.patron), Some(&asked.item)),
        Act::FeePaid(asked) => (Some(&asked.patron), None),
        Act::RenewAll(asked) => (Some(&asked.patron), None),
    }
}
