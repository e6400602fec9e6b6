//! What a message asks.

ghost use Rattle.std.specs.Prelude.{◌≡◌};

use crate::{Amount, Day, Id, Stamp, Text};

/// A kind of request that the rules know.
#[derive(Clone, Copy, PartialEq, Eq)]
pub enum Kind {
    BlockPatron,
    Checkin,
    Checkout,
    Hold,
    ItemStatus,
    PatronEnable,
    Renew,
    FeePaid,
    RenewAll,
}

/// Why a message is passed over: its identifier, or that it names an item by title.
#[derive(Clone, Copy, PartialEq, Eq)]
pub enum Passed {
    ItemInformation,
    PatronStatus,
    EndSession,
    PatronInformation,
    Login,
    Resend,
    TerminalStatus,
    /// It names its item by a title alone.
    Title,
}

impl Passed {
    ghost use Rattle.sip_reader.specs.Words.{passed_word};

    /// Gives the word of `passed.csv`: the two digits of the message's identifier, or `title`.
    pub fn word(self) -> &'static str
        ensures { result.now ≡ passed_word self }
    {
        match self {
            Passed::ItemInformation => "17",
            Passed::PatronStatus => "23",
            Passed::EndSession => "35",
            Passed::PatronInformation => "63",
            Passed::Login => "93",
            Passed::Resend => "97",
            Passed::TerminalStatus => "99",
            Passed::Title => "title",
        }
    }
}

/// Why a message can't be read: the first test that it fails.
#[derive(Clone, Copy, PartialEq, Eq)]
pub enum Why {
    TooShort,
    TooLong,
    UnknownKind,
    BadDate,
    BadFlag,
    BadField,
    MissingField,
    BadAmount,
}

impl Why {
    ghost use Rattle.sip_reader.specs.Words.{why_word};

    /// Gives the word of `passed.csv` for the test that the message failed.
    pub fn word(self) -> &'static str
        ensures { result.now ≡ why_word self }
    {
        match self {
            Why::TooShort => "too_short",
            Why::TooLong => "too_long",
            Why::UnknownKind => "unknown_kind",
            Why::BadDate => "bad_date",
            Why::BadFlag => "bad_flag",
            Why::BadField => "bad_field",
            Why::MissingField => "missing_field",
            Why::BadAmount => "bad_amount",
        }
    }
}

/// What a message is.
pub enum Reading {
    /// A request of a kind that the rules know.
    Asked(Request),
    /// A message that is passed over.
    Passed(Passed),
    /// A message whose error detection doesn't have the sum of its bytes.
    BadSum,
    /// A message that can't be read.
    Unread(Why),
}

impl Drop for Reading {
    fn drop(self) {
        match self {
            Reading::Asked(_) => {}
            Reading::Passed(_) => {}
            Reading::BadSum => {}
            Reading::Unread(_) => {}
        }
    }
}

/// A request.
pub struct Request {
    /// The digit of its error detection, in ASCII.
    pub sequence: Option<u8>,
    /// The transaction date.
    pub date: Stamp,
    pub act: Act,
}

impl Drop for Request {
    fn drop(self) {
        let Request {
            sequence: _,
            date: _,
            act: _,
        } = self;
    }
}

/// What is asked.
pub enum Act {
    BlockPatron(BlockPatron),
    Checkin(Checkin),
    Checkout(Checkout),
    Hold(HoldRequest),
    ItemStatus(ItemStatus),
    PatronEnable(PatronEnable),
    Renew(Renew),
    FeePaid(FeePaid),
    RenewAll(RenewAll),
}

impl Drop for Act {
    fn drop(self) {
        match self {
            Act::BlockPatron(_) => {}
            Act::Checkin(_) => {}
            Act::Checkout(_) => {}
            Act::Hold(_) => {}
            Act::ItemStatus(_) => {}
            Act::PatronEnable(_) => {}
            Act::Renew(_) => {}
            Act::FeePaid(_) => {}
            Act::RenewAll(_) => {}
        }
    }
}

impl Act {
    ghost use Rattle.sip_reader.specs.Words.{kind_of};

    /// Gives the kind of request that asks this act.
    pub fn kind(&self) -> Kind
        ensures { result ≡ kind_of self.now }
    {
        match self {
            Act::BlockPatron(_) => Kind::BlockPatron,
            Act::Checkin(_) => Kind::Checkin,
            Act::Checkout(_) => Kind::Checkout,
            Act::Hold(_) => Kind::Hold,
            Act::ItemStatus(_) => Kind::ItemStatus,
            Act::PatronEnable(_) => Kind::PatronEnable,
            Act::Renew(_) => Kind::Renew,
            Act::FeePaid(_) => Kind::FeePaid,
            Act::RenewAll(_) => Kind::RenewAll,
        }
    }
}

/// A patron is blocked, as after a card was retained (SIP 2.00, Block Patron).
pub struct BlockPatron {
    pub patron: Id,
}

impl Drop for BlockPatron {
    fn drop(self) {
        let BlockPatron { patron: _ } = self;
    }
}

/// An item comes back (SIP 2.00, Checkin).
pub struct Checkin {
    /// The day of the return date, where it is a date.
    pub back: Option<Day>,
    pub item: Id,
    /// Whether an earlier checkout is cancelled.
    pub cancel: bool,
}

impl Drop for Checkin {
    fn drop(self) {
        let Checkin {
            back: _,
            item: _,
            cancel: _,
        } = self;
    }
}

/// An item goes out (SIP 2.00, Checkout).
pub struct Checkout {
    /// Whether the terminal's policy allows a renewal.
    pub renewal: bool,
    /// Whether it was done off line.
    pub no_block: bool,
    /// The due day that was given then.
    pub due: Option<Day>,
    pub patron: Id,
    pub item: Id,
    /// Whether an earlier checkin is cancelled.
    pub cancel: bool,
    /// Whether the user agreed to the fee.
    pub agreed: bool,
}

impl Drop for Checkout {
    fn drop(self) {
        let Checkout {
            renewal: _,
            no_block: _,
            due: _,
            patron: _,
            item: _,
            cancel: _,
            agreed: _,
        } = self;
    }
}

/// What is done to a queue of holds (SIP 2.00, hold mode).
#[derive(Clone, Copy, PartialEq, Eq)]
pub enum HoldMode {
    Add,
    Delete,
    Change,
}

/// A patron's place in an item's queue is added, removed or changed (SIP 2.00, Hold).
pub struct HoldRequest {
    pub mode: HoldMode,
    pub patron: Id,
    pub item: Id,
    /// Where the item is to be picked up; empty where the request doesn't say.
    pub pickup: Text,
}

impl Drop for HoldRequest {
    fn drop(self) {
        let HoldRequest {
            mode: _,
            patron: _,
            item: _,
            pickup: _,
        } = self;
    }
}

/// An item's properties are set (SIP 2.00, Item Status Update).
pub struct ItemStatus {
    pub item: Id,
    /// The properties that replace the item's.
    pub properties: Option<Text>,
}

impl Drop for ItemStatus {
    fn drop(self) {
        let ItemStatus {
            item: _,
            properties: _,
        } = self;
    }
}

/// A patron's block is removed (SIP 2.00, Patron Enable).
pub struct PatronEnable {
    pub patron: Id,
}

impl Drop for PatronEnable {
    fn drop(self) {
        let PatronEnable { patron: _ } = self;
    }
}

/// A loan is renewed (SIP 2.00, Renew).
pub struct Renew {
    /// Whether another than the borrower may renew.
    pub third_party: bool,
    /// Whether it was done off line.
    pub no_block: bool,
    /// The due day that was given then.
    pub due: Option<Day>,
    pub patron: Id,
    pub item: Id,
    /// Whether the user agreed to the fee.
    pub agreed: bool,
}

impl Drop for Renew {
    fn drop(self) {
        let Renew {
            third_party: _,
            no_block: _,
            due: _,
            patron: _,
            item: _,
            agreed: _,
        } = self;
    }
}

/// A patron pays (SIP 2.00, Fee Paid).
pub struct FeePaid {
    pub patron: Id,
    /// Three bytes, for a currency as USD.
    pub currency: [u8; 3],
    /// What is paid.
    pub amount: Amount,
    /// The fee that is meant.
    pub fee: Option<Id>,
}

impl Drop for FeePaid {
    fn drop(self) {
        let FeePaid {
            patron: _,
            currency: _,
            amount: _,
            fee: _,
        } = self;
    }
}

/// All loans of a patron are renewed (SIP 2.00, Renew All).
pub struct RenewAll {
    pub patron: Id,
    /// Whether the user agreed to the fees.
    pub agreed: bool,
}

impl Drop for RenewAll {
    fn drop(self) {
        let RenewAll {
            patron: _,
            agreed: _,
        } = self;
    }
}
