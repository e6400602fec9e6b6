//! Identifiers of messages, and the layouts of requests.

ghost use Rattle.std.specs.Prelude.{◌≡◌};
ghost use Rattle.sip_reader.specs.Kinds.{command_at, layout_of};

use crate::stamp::STAMP_LEN;
use crate::{Kind, Passed};

/// What the identifier of a message says.
#[derive(Clone, Copy)]
pub enum Command {
    Request(Kind),
    Passed(Passed),
}

impl Command {
    /// Gives the command of a message that begins with these two bytes; None if they begin none.
    #[tactic(auto, unfolding(crate::specs::Kinds::command_at, crate::specs::Kinds::command_numbered))]
    pub fn spelt(a: u8, b: u8) -> Option<Command>
        ensures { result ≡ command_at a b }
    {
        if !a.is_ascii_digit() || !b.is_ascii_digit() {
            return None;
        }
        Some(match (a - b'0') * 10 + (b - b'0') {
            1 => Command::Request(Kind::BlockPatron),
            9 => Command::Request(Kind::Checkin),
            11 => Command::Request(Kind::Checkout),
            15 => Command::Request(Kind::Hold),
            17 => Command::Passed(Passed::ItemInformation),
            19 => Command::Request(Kind::ItemStatus),
            23 => Command::Passed(Passed::PatronStatus),
            25 => Command::Request(Kind::PatronEnable),
            29 => Command::Request(Kind::Renew),
            35 => Command::Passed(Passed::EndSession),
            37 => Command::Request(Kind::FeePaid),
            63 => Command::Passed(Passed::PatronInformation),
            65 => Command::Request(Kind::RenewAll),
            93 => Command::Passed(Passed::Login),
            97 => Command::Passed(Passed::Resend),
            99 => Command::Passed(Passed::TerminalStatus),
            _ => return None,
        })
    }
}

/// The fixed part of a request after its identifier, and which variable fields the rules use.
#[derive(Clone, Copy)]
pub struct FieldLayout {
    /// The number of flags before the date, each of one byte.
    pub flags: usize,
    /// Whether the flag is a hold mode; others are yes or no.
    pub hold_mode: bool,
    /// The number of bytes after the date.
    pub after: usize,
    /// Whether AA is used, and so required.
    pub patron: bool,
    /// Whether AB is used, and so required.
    pub item: bool,
    /// Whether BV is used, and so required.
    pub amount: bool,
    /// Whether CH is used.
    pub properties: bool,
    /// Whether BS is used.
    pub pickup: bool,
    /// Whether AJ may name the item.
    pub title: bool,
}

/// A transaction date after the identifier and nothing else.
const DATE_ALONE: FieldLayout = FieldLayout {
    flags: 0,
    hold_mode: false,
    after: 0,
    patron: false,
    item: false,
    amount: false,
    properties: false,
    pickup: false,
    title: false,
};

/// A patron's id after the date.
const PATRON_ALONE: FieldLayout = FieldLayout {
    patron: true,
    ..DATE_ALONE
};

/// One flag, and a patron's id.
const BLOCK_PATRON: FieldLayout = FieldLayout {
    flags: 1,
    ..PATRON_ALONE
};

/// One flag and a return date, and an item's id.
const CHECKIN: FieldLayout = FieldLayout {
    flags: 1,
    after: STAMP_LEN,
    item: true,
    ..DATE_ALONE
};

/// Two flags and a no block due date, a patron's id and an item's.
const CHECKOUT: FieldLayout = FieldLayout {
    flags: 2,
    after: STAMP_LEN,
    patron: true,
    item: true,
    ..DATE_ALONE
};

/// The same, where a title may name the item.
const RENEW: FieldLayout = FieldLayout {
    title: true,
    ..CHECKOUT
};

/// A hold mode, a patron's id and an item's or its title, and where it is picked up.
const HOLD: FieldLayout = FieldLayout {
    flags: 1,
    hold_mode: true,
    patron: true,
    item: true,
    pickup: true,
    title: true,
    ..DATE_ALONE
};

/// An item's id and its properties.
const ITEM_STATUS: FieldLayout = FieldLayout {
    item: true,
    properties: true,
    ..DATE_ALONE
};

/// The types of fee, of payment and of currency, and a patron's id and an amount.
const FEE_PAID: FieldLayout = FieldLayout {
    after: 7,
    amount: true,
    ..PATRON_ALONE
};

impl Kind {
    /// Gives the layout that the standard has for requests of its kind.
    pub fn layout(self) -> FieldLayout
        ensures { result ≡ layout_of self }
    {
        match self {
            Kind::BlockPatron => BLOCK_PATRON,
            Kind::Checkin => CHECKIN,
            Kind::Checkout => CHECKOUT,
            Kind::Hold => HOLD,
            Kind::ItemStatus => ITEM_STATUS,
            Kind::PatronEnable => PATRON_ALONE,
            Kind::Renew => RENEW,
            Kind::FeePaid => FEE_PAID,
            Kind::RenewAll => PATRON_ALONE,
        }
    }
}
