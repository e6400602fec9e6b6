//! Ids of patrons, items and fees.

ghost use Rattle.std.specs.Prelude.{◌≡◌, ◌≤◌, ◌+◌, ◌++◌, if◌then◌else◌, Some, None, length, true, IfOk, IsTrue, OnErr, OnOk};
ghost use Rattle.std.specs.Cmp.{partial_order_from_own_ties};
ghost use Rattle.std.specs.Cmp.Lexicographic.{slice_cmp};
ghost use Rattle.std.specs.Cmp.Rules.{comparing};
ghost use Rattle.std.specs.Ordering.{nat_cmp, as_partial_cmp, eq_by_cmp};
ghost use Rattle.std.proofs.Common.{rules};
ghost use Rattle.sip_reader.specs.Devices.Hashes.{id_hash};
ghost use Rattle.sip_reader.specs.Texts.{fee_id, is_id};

use crate::barred::has_barred;
use crate::inline::hash_of;
use crate::text_bytes::TextBytes;
use arrayvec::ArrayVec;
use itoa::Buffer;
use std::alloc::{AllocError, Global};
use std::cmp::Ordering;
use std::marker::Model;

/// The longest id, in bytes.
pub const ID_MAX: usize = 64;

/// The greatest number of a line of a journal, of ten digits: the id of a fee that a line makes has
/// the line's number in it.
pub const LINE_NUMBER_MAX: u64 = 9_999_999_999;

/// The number after the greatest, which no line has.
pub const LINE_NUMBER_END: u64 = 10_000_000_000;

/// The id of a patron, an item or a fee: 1 to 64 bytes without a bar, CR or LF. Ids are ordered by
/// their bytes. Up to 14 bytes are inline; a longer id is on the heap once for all its copies, so a
/// clone takes no memory.
pub struct Id {
    held: TextBytes,
}

impl Drop for Id {
    fn drop(self) {
        let Id { held: _ } = self;
    }
}

impl Model for Id {
    ghost use Rattle.std.specs.Prelude.{ℕ, List, ◌≡◌, true};
    ghost use Rattle.sip_reader.specs.Devices.Held.{bytes_held};
    ghost use Rattle.sip_reader.specs.Texts.{is_id};

    ghost Value = { List ℕ };

    ghost view = { λ i. bytes_held i.held };

    ghost invariant = { λ i. is_id (bytes_held i.held) ≡ true };
}

impl Id {
    /// Gives the id of exactly these bytes, or None if they are no id.
    pub fn read(alloc: Global, bytes: &[u8]) -> Result<Option<Id>, AllocError>
        ensures { IfOk result (λ id. id ≡ (if is_id bytes.now then Some bytes.now else None)) }
    {
        if !is_id(bytes) {
            return Ok(None);
        }
        Ok(Some(Id::of_valid(alloc, bytes)?))
    }

    /// The id of bytes that are known to be an id.
    pub(crate) fn of_valid(alloc: Global, bytes: &[u8]) -> Result<Id, AllocError>
        requires { is_id bytes.now ≡ true }
        ensures { IfOk result (λ id. id ≡ bytes.now) }
    {
        let held = TextBytes::of(alloc, bytes)?;
        Ok(Id { held })
    }

    /// Gives `R<line>-<k>`, the id of the fee that a line of the journal makes after k others.
    #[tactic(auto, unfolding(crate::specs::Texts::fee_id))]
    pub fn of_fee(alloc: Global, line: u64, k: u64) -> Result<Id, AllocError>
        ensures { IfOk result (λ id. id ≡ fee_id line k) }
    {
        let (mut first, mut second) = (Buffer::new(), Buffer::new());
        let mut bytes = ArrayVec::new();
        append(&mut bytes, b"R");
        append(&mut bytes, first.format(line).as_bytes());
        append(&mut bytes, b"-");
        append(&mut bytes, second.format(k).as_bytes());
        Id::of_valid(alloc, bytes.as_slice())
    }

    /// Gives the same hash for equal ids, made of the first eight bytes and the last eight.
    pub fn hash(&self) -> u64
        ensures { result ≡ id_hash self.now }
    {
        match &self.held {
            TextBytes::Inline(inline) => inline.hash(),
            held => hash_of(held.as_slice()),
        }
    }

    /// Gives the bytes of which it was made.
    pub fn as_bytes(&self) -> &[u8]
        ensures { result.now ≡ self.now }
    {
        self.held.as_slice()
    }

    /// Appends its bytes to others, whose own bytes stay; out of memory, nothing is appended.
    pub fn append_to(&self, out: &mut Vec<u8>) -> Result<(), AllocError>
        ensures ok { OnOk result (out.new.items ≡ out.old.items ++ self.now) }
        ensures err { OnErr result (out.new.items ≡ out.old.items) }
    {
        match &self.held {
            TextBytes::Inline(inline) => inline.append_to(out),
            held => held.append_to(out),
        }
    }

    /// A lemma: does nothing at run time; gives callers the type's promise that its bytes are an
    /// id.
    pub fn keeps_its_form(&self)
        ensures { is_id self.now ≡ true }
    {
        let Id { held: _held } = self;
    }
}

/// Appends bytes that fit: with them there are at most `ID_MAX`.
fn append(bytes: &mut ArrayVec<u8, ID_MAX>, more: &[u8])
    requires { length bytes.old.items + length more.now ≤ ID_MAX }
    ensures { bytes.new.items ≡ bytes.old.items ++ more.now }
{
    let _fits = bytes.try_extend_from_slice(more);
}

/// True exactly if these bytes are an id: 1 to 64 of them, without a bar, CR or LF.
#[tactic(auto, unfolding(crate::specs::Texts::is_id))]
pub fn is_id(bytes: &[u8]) -> bool
    ensures value { result ≡ is_id bytes.now }
    ensures short { IsTrue result → length bytes.now ≤ ID_MAX }
{
    !bytes.is_empty() && bytes.len() <= ID_MAX && !has_barred(bytes)
}

/// A clone is the same id. It takes no memory.
impl Clone for Id {
    ghost use Rattle.std.specs.Prelude.{◌≡◌};

    ghost is_clone = { λ x y. y ≡ x };

    fn clone(&self) -> Result<Id, AllocError> {
        let held = self.held.copy()?;
        Ok(Id { held })
    }
}

impl PartialEq for Id {
    ghost eq = { eq_by_cmp (slice_cmp nat_cmp) };

    ghost laws = { Prim.search (comparing, rules) };

    fn eq(&self, other: &Id) -> bool {
        self.cmp(other).is_eq()
    }
}

impl Eq for Id {
    ghost laws = { Prim.search (comparing, rules) };
}

impl Ord for Id {
    ghost cmp = { slice_cmp nat_cmp };

    ghost total = { Prim.search (comparing, rules) };

    ghost matches_partial_cmp = { Prim.search (comparing, rules) };

    ghost matches_eq = { Prim.search (comparing, rules) };

    fn cmp(&self, other: &Id) -> Ordering {
        match (&self.held, &other.held) {
            (TextBytes::Inline(inline), TextBytes::Inline(others)) => inline.order(others),
            _ => self.as_bytes().cmp(other.as_bytes()),
        }
    }
}

impl PartialOrd for Id {
    ghost partial_cmp = { as_partial_cmp (slice_cmp nat_cmp) };

    ghost laws = { partial_order_from_own_ties (Prim.search (comparing, rules)) (Prim.search (comparing, rules)) };

    fn partial_cmp(&self, other: &Id) -> Option<Ordering> {
        Some(self.cmp(other))
    }
}
