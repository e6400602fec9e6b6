ghost use Rattle.std.specs.Prelude.{◌≡◌, IfOk};
ghost use Rattle.std.proofs.Common.{rules};
ghost use Rattle.std.specs.Cmp.{partial_order_from_own_ties};
ghost use Rattle.std.specs.Cmp.Rules.{comparing};
ghost use Rattle.std.specs.Ordering.{as_partial_cmp, eq_by_cmp};
ghost use Rattle.circ_records.specs.Keys.{id_of, key_cmp, key_cmp_total, key_of};

use sip_reader::Id;
use std::alloc::AllocError;
use std::cmp::Ordering;

/// The key of a record: whether it is of a patron, an item or a fee, and its id.
pub enum Key {
    Patron(Id),
    Item(Id),
    Fee(Id),
}

impl Drop for Key {
    #[inline(always)]
    fn drop(self) {
        match self {
            Key::Patron(_) => {}
            Key::Item(_) => {}
            Key::Fee(_) => {}
        }
    }
}

/// A key that borrows its id, to look for a record.
#[derive(Clone, Copy)]
pub enum KeyRef<'k> {
    Patron(&'k Id),
    Item(&'k Id),
    Fee(&'k Id),
}

impl Key {
    /// Gives the id of the record, whatever its kind.
    pub fn id(&self) -> &Id
        ensures { result.now ≡ id_of self.now }
    {
        match self {
            Key::Patron(id) | Key::Item(id) | Key::Fee(id) => id,
        }
    }

    /// Gives the same key, its id borrowed.
    pub fn as_ref(&self) -> KeyRef<'_>
        ensures { key_of result ≡ self.now }
    {
        match self {
            Key::Patron(id) => KeyRef::Patron(id),
            Key::Item(id) => KeyRef::Item(id),
            Key::Fee(id) => KeyRef::Fee(id),
        }
    }
}

impl KeyRef<'_> {
    /// The same key, its id owned. Allocates nothing.
    pub(crate) fn to_key(self) -> Result<Key, AllocError>
        ensures { IfOk result (λ key. key ≡ key_of self.entry) }
    {
        match self {
            KeyRef::Patron(id) => Ok(Key::Patron(id.clone()?)),
            KeyRef::Item(id) => Ok(Key::Item(id.clone()?)),
            KeyRef::Fee(id) => Ok(Key::Fee(id.clone()?)),
        }
    }

    /// How it compares with another key: patrons come first, then items, then fees, each by their
    /// ids.
    pub(crate) fn compare(self, key: &Key) -> Ordering
        ensures { result ≡ key_cmp (key_of self.entry) key.now }
    {
        match (self, key) {
            (KeyRef::Patron(own), Key::Patron(id))
            | (KeyRef::Item(own), Key::Item(id))
            | (KeyRef::Fee(own), Key::Fee(id)) => own.cmp(id),
            (KeyRef::Patron(_), _) | (_, Key::Fee(_)) => Ordering::Less,
            (KeyRef::Fee(_), _) | (_, Key::Patron(_)) => Ordering::Greater,
        }
    }

    /// `Less` where `key` comes before self, as a binary search asks.
    pub(crate) fn order(self, key: &Key) -> Ordering
        ensures { result ≡ key_cmp key.now (key_of self.entry) }
    {
        self.compare(key).reverse()
    }
}

/// A clone is the same key. Allocates nothing.
impl Clone for Key {
    ghost use Rattle.std.specs.Prelude.{◌≡◌};

    ghost is_clone = { λ x y. y ≡ x };

    fn clone(&self) -> Result<Key, AllocError> {
        self.as_ref().to_key()
    }
}

impl PartialEq for Key {
    ghost eq = { eq_by_cmp key_cmp };

    ghost laws = { Prim.search (comparing, key_cmp_total, rules) };

    fn eq(&self, other: &Key) -> bool {
        self.cmp(other).is_eq()
    }
}

impl Eq for Key {
    ghost laws = { Prim.search (comparing, key_cmp_total, rules) };
}

impl Ord for Key {
    ghost cmp = { key_cmp };

    ghost total = { key_cmp_total };

    ghost matches_partial_cmp = { Prim.search (comparing, rules) };

    ghost matches_eq = { Prim.search (comparing, rules) };

    fn cmp(&self, other: &Key) -> Ordering {
        self.as_ref().compare(other)
    }
}

impl PartialOrd for Key {
    ghost partial_cmp = { as_partial_cmp key_cmp };

    ghost laws = { partial_order_from_own_ties (Prim.search (comparing, key_cmp_total, rules)) (Prim.search (comparing, rules)) };

    fn partial_cmp(&self, other: &Key) -> Option<Ordering> {
        Some(self.cmp(other))
    }
}
