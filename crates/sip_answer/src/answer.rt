//! Answers: for each kind of response all that is written.
//!
//! Fields are in memory in their order here, and the answer of each line is stored to the end of a
//! run: so the small ones come first, together, where none leaves a gap before the next.

ghost use Rattle.std.specs.Prelude.{◌≡◌};
ghost use Rattle.sip_answer.specs.Reasons.{reason_of};

use crate::item_ids::ItemIds;
use crate::owed::Owed;
use crate::reason::{Reason, Reasons};
use circ_policy::{DueForm, MediaType};
use sip_reader::{Amount, Day, Id, Stamp, Text};

/// What is answered to a request.
pub enum Answer {
    /// Response 24, to a block patron.
    BlockPatron(PatronAnswer),
    /// Response 10.
    Checkin(CheckinAnswer),
    /// Response 12.
    Checkout(LoanAnswer),
    /// Response 16.
    Hold(HoldAnswer),
    /// Response 20.
    ItemStatus(ItemStatusAnswer),
    /// Response 26.
    PatronEnable(PatronAnswer),
    /// Response 30.
    Renew(LoanAnswer),
    /// Response 38.
    FeePaid(FeePaidAnswer),
    /// Response 66.
    RenewAll(RenewAllAnswer),
    /// Response 96, to a message whose sum is wrong: send it again.
    Resend,
}

impl Drop for Answer {
    fn drop(self) {
        match self {
            Answer::BlockPatron(_) => {}
            Answer::Checkin(_) => {}
            Answer::Checkout(_) => {}
            Answer::Hold(_) => {}
            Answer::ItemStatus(_) => {}
            Answer::PatronEnable(_) => {}
            Answer::Renew(_) => {}
            Answer::FeePaid(_) => {}
            Answer::RenewAll(_) => {}
            Answer::Resend => {}
        }
    }
}

impl Answer {
    /// Gives the first test of the rule that decided this answer, or the reason of a yes.
    pub fn reason(&self) -> Reason
        ensures { result ≡ reason_of self.now }
    {
        match self {
            Answer::BlockPatron(a) => a.reason,
            Answer::Checkin(a) => a.reason,
            Answer::Checkout(a) => a.reason,
            Answer::Hold(a) => a.reason,
            Answer::ItemStatus(a) => a.reason,
            Answer::PatronEnable(a) => a.reason,
            Answer::Renew(a) => a.reason,
            Answer::FeePaid(a) => a.reason,
            Answer::RenewAll(a) => a.reason,
            Answer::Resend => Reason::Checksum,
        }
    }
}

/// The answer to a block patron or a patron enable.
pub struct PatronAnswer {
    /// The request's transaction date.
    pub date: Stamp,
    /// The status after the change.
    pub status: PatronStatus,
    /// Why it is answered so.
    pub reason: Reason,
    /// The currency of what is owed, three letters.
    pub currency: [u8; 3],
    pub institution: Id,
    pub patron: Id,
    /// If the patron is known.
    pub known: Option<KnownPatron>,
}

impl Drop for PatronAnswer {
    fn drop(self) {
        let PatronAnswer {
            date: _,
            status: _,
            reason: _,
            currency: _,
            institution: _,
            patron: _,
            known: _,
        } = self;
    }
}

/// The positions of a patron status that can be set here.
#[derive(Clone, Copy, PartialEq, Eq)]
pub struct PatronStatus {
    /// Position 0.
    pub charge_denied: bool,
    /// Position 1.
    pub renewal_denied: bool,
    /// Position 3.
    pub hold_denied: bool,
    /// Position 5.
    pub too_many_items: bool,
    /// Position 11.
    pub excessive_fees: bool,
}

/// What an answer shows of a patron that is known.
pub struct KnownPatron {
    pub name: Text,
    /// What is owed.
    pub owed: Owed,
}

impl Drop for KnownPatron {
    fn drop(self) {
        let KnownPatron { name: _, owed: _ } = self;
    }
}

/// The answer to a checkin. Its ok is 1 where the item is known.
pub struct CheckinAnswer {
    /// The request's transaction date.
    pub date: Stamp,
    /// Whether somebody waits for the item.
    pub alert: bool,
    /// Why it is answered so.
    pub reason: Reason,
    pub institution: Id,
    pub item: Id,
    /// If the item is known.
    pub known: Option<ReturnedItem>,
    /// Whose loan ended, where one did.
    pub borrower: Option<Id>,
}

impl Drop for CheckinAnswer {
    fn drop(self) {
        let CheckinAnswer {
            date: _,
            alert: _,
            reason: _,
            institution: _,
            item: _,
            known: _,
            borrower: _,
        } = self;
    }
}

/// What the answer to a checkin shows of an item that is known.
pub struct ReturnedItem {
    pub location: Text,
    pub title: Text,
    pub media: MediaType,
    pub properties: Text,
}

impl Drop for ReturnedItem {
    fn drop(self) {
        let ReturnedItem {
            location: _,
            title: _,
            media: _,
            properties: _,
        } = self;
    }
}

/// The answer to a checkout or a renewal. Its ok is 1 where there is a due day.
pub struct LoanAnswer {
    /// The request's transaction date.
    pub date: Stamp,
    /// Whether a renewal was made.
    pub renewed: bool,
    /// Why it is answered so.
    pub reason: Reason,
    /// How the due day is written.
    pub due_form: DueForm,
    /// The due day, where a loan or a renewal was made.
    pub due: Option<Day>,
    /// The currency of the rental, three letters.
    pub currency: [u8; 3],
    pub institution: Id,
    pub patron: Id,
    pub item: Id,
    /// If the item is known.
    pub known: Option<KnownItem>,
    /// The rental that was charged, or for which the request is refused, in hundredths.
    pub rental: Option<Amount>,
}

impl Drop for LoanAnswer {
    fn drop(self) {
        let LoanAnswer {
            date: _,
            renewed: _,
            reason: _,
            due_form: _,
            due: _,
            currency: _,
            institution: _,
            patron: _,
            item: _,
            known: _,
            rental: _,
        } = self;
    }
}

/// What the answer to a checkout or a renewal shows of an item that is known.
pub struct KnownItem {
    pub title: Text,
    pub media: MediaType,
    pub properties: Text,
}

impl Drop for KnownItem {
    fn drop(self) {
        let KnownItem {
            title: _,
            media: _,
            properties: _,
        } = self;
    }
}

/// The answer to an item status update. Its ok is 1 where the item is known.
pub struct ItemStatusAnswer {
    /// The request's transaction date.
    pub date: Stamp,
    /// Why it is answered so.
    pub reason: Reason,
    pub item: Id,
    /// If the item is known.
    pub known: Option<TitledItem>,
}

impl Drop for ItemStatusAnswer {
    fn drop(self) {
        let ItemStatusAnswer {
            date: _,
            reason: _,
            item: _,
            known: _,
        } = self;
    }
}

/// What the answer to an item status update shows of an item that is known.
pub struct TitledItem {
    pub title: Text,
    /// The properties after the change.
    pub properties: Text,
}

impl Drop for TitledItem {
    fn drop(self) {
        let TitledItem {
            title: _,
            properties: _,
        } = self;
    }
}

/// The answer to a payment.
pub struct FeePaidAnswer {
    /// The request's transaction date.
    pub date: Stamp,
    pub accepted: bool,
    /// Why it is answered so.
    pub reason: Reason,
    pub institution: Id,
    pub patron: Id,
}

impl Drop for FeePaidAnswer {
    fn drop(self) {
        let FeePaidAnswer {
            date: _,
            accepted: _,
            reason: _,
            institution: _,
            patron: _,
        } = self;
    }
}

/// The answer to a renewal of all items.
pub struct RenewAllAnswer {
    /// The request's transaction date.
    pub date: Stamp,
    pub ok: bool,
    /// Why it is answered so.
    pub reason: Reason,
    pub institution: Id,
    /// The items that were renewed, in the order of the patron's list.
    pub renewed: ItemIds,
    /// The items that weren't, in that order.
    pub unrenewed: ItemIds,
    /// Why each of these wasn't.
    pub reasons: Reasons,
}

impl Drop for RenewAllAnswer {
    fn drop(self) {
        let RenewAllAnswer {
            date: _,
            ok: _,
            reason: _,
            institution: _,
            renewed: _,
            unrenewed: _,
            reasons: _,
        } = self;
    }
}

/// The answer to a hold.
pub struct HoldAnswer {
    /// The request's transaction date.
    pub date: Stamp,
    pub ok: bool,
    /// Whether the item waits for this patron.
    pub available: bool,
    /// Why it is answered so.
    pub reason: Reason,
    pub institution: Id,
    pub patron: Id,
    pub item: Id,
    /// The patron's position in the queue, where a hold was added or changed.
    pub position: Option<QueuePosition>,
    /// If the item is known.
    pub title: Option<Text>,
}

impl Drop for HoldAnswer {
    fn drop(self) {
        let HoldAnswer {
            date: _,
            ok: _,
            available: _,
            reason: _,
            institution: _,
            patron: _,
            item: _,
            position: _,
            title: _,
        } = self;
    }
}

/// A position in an item's queue.
pub struct QueuePosition {
    /// Counted from 1.
    pub number: usize,
    pub pickup: Text,
}

impl Drop for QueuePosition {
    fn drop(self) {
        let QueuePosition {
            number: _,
            pickup: _,
        } = self;
    }
}
