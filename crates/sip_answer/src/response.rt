//! What is read of a recorded response, by its kind.

ghost use Rattle.std.specs.Prelude.{◌≡◌};

use crate::answer::PatronStatus;
use crate::named_items::NamedItems;
use sip_reader::{Amount, Day};

/// Of responses 24 and 26.
#[derive(Clone, Copy)]
pub struct PatronResponse {
    pub status: PatronStatus,
    /// Whether it says that the patron is valid.
    pub valid: bool,
}

/// Of response 10.
#[derive(Clone, Copy)]
pub struct CheckinResponse {
    pub ok: bool,
    pub alert: bool,
    /// Whether ok is 0 and the item's place is named all the same.
    pub placed: bool,
}

/// Of responses 12 and 30.
#[derive(Clone, Copy)]
pub struct LoanResponse {
    pub ok: bool,
    /// Whether it says that a renewal was made.
    pub renewal: bool,
    /// The due day, if one can be read.
    pub due: Option<Day>,
    /// Whether the due date has the form with slashes.
    pub slashed: bool,
    /// The fee in hundredths, if one is named.
    pub fee: Option<Amount>,
}

/// Of response 16.
#[derive(Clone, Copy)]
pub struct HoldResponse {
    pub ok: bool,
    /// Whether the item waits for the patron.
    pub available: bool,
}

/// Of response 66.
pub struct RenewAllResponse {
    pub ok: bool,
    /// How many items were renewed.
    pub renewed: usize,
    /// How many weren't.
    pub unrenewed: usize,
    /// The items that it names as renewed.
    pub renewed_items: NamedItems,
    /// The items that it names as not renewed.
    pub unrenewed_items: NamedItems,
}

impl Drop for RenewAllResponse {
    fn drop(self) {
        let RenewAllResponse {
            ok: _,
            renewed: _,
            unrenewed: _,
            renewed_items: _,
            unrenewed_items: _,
        } = self;
    }
}

impl RenewAllResponse {
    /// Gives the items that it names as renewed, all of them in their order.
    pub fn into_renewed(self) -> NamedItems
        ensures { result ≡ self.renewed_items }
    {
        let RenewAllResponse {
            ok: _,
            renewed: _,
            unrenewed: _,
            renewed_items,
            unrenewed_items: _,
        } = self;
        renewed_items
    }
}
