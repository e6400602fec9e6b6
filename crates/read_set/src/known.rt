//! Which records the rules take as known.

ghost use Rattle.std.specs.Prelude.{◌≡◌};
ghost use Rattle.read_set.specs.Known.{as_article, as_member, as_fee};

use circ_policy::{Class, Media, Policy};
use circ_records::{Fee, Item, Patron, Record, Shared};

/// An item with the terms of its media type.
pub struct Article {
    pub item: Shared<Item>,
    pub media: Media,
}

impl Drop for Article {
    fn drop(self) {
        let Article { item: _, media: _ } = self;
    }
}

impl Article {
    /// The item alone.
    pub fn into_item(self) -> Shared<Item>
        ensures { result ≡ self.item }
    {
        let Article { item, media: _ } = self;
        item
    }
}

/// A patron with the limits of its class.
pub struct Member {
    pub patron: Shared<Patron>,
    pub class: Class,
}

impl Drop for Member {
    fn drop(self) {
        let Member {
            patron: _,
            class: _,
        } = self;
    }
}

impl Member {
    /// The patron alone.
    pub fn into_patron(self) -> Shared<Patron>
        ensures { result ≡ self.patron }
    {
        let Member { patron, class: _ } = self;
        patron
    }
}

/// The item that a record is: a record of another kind, and an item whose media type the policy lacks, count as unknown.
#[inline(always)]
#[tactic(auto, unfolding(crate::specs::Known::as_article))]
pub fn known_item(policy: &Policy, found: Option<Record>) -> Option<Article>
    ensures { result ≡ as_article policy.now found }
{
    match found {
        Some(Record::Item(item)) => match policy.media(item.get().media) {
            Some(media) => Some(Article { item, media }),
            None => None,
        },
        _ => None,
    }
}

/// The patron that a record is: a record of another kind, and a patron whose class the policy lacks, count as unknown.
#[inline(always)]
#[tactic(auto, unfolding(crate::specs::Known::as_member))]
pub fn known_patron(policy: &Policy, found: Option<Record>) -> Option<Member>
    ensures { result ≡ as_member policy.now found }
{
    match found {
        Some(Record::Patron(patron)) => match policy.class(&patron.get().class) {
            Some(class) => Some(Member { patron, class }),
            None => None,
        },
        _ => None,
    }
}

/// The fee that a record is; None for a record of another kind.
#[tactic(auto, unfolding(crate::specs::Known::as_fee))]
pub fn known_fee(found: Option<Record>) -> Option<Shared<Fee>>
    ensures { result ≡ as_fee found }
{
    match found {
        Some(Record::Fee(fee)) => Some(fee),
        _ => None,
    }
}
