//! Up to 14 bytes that take no memory of their own.

ghost use Rattle.std.specs.Prelude.{◌≡◌, ◌≤◌, ◌+◌, ◌++◌, ◌-◌, OnErr, OnOk, length, replicate, take, drop};
ghost use Rattle.std.specs.Slice.Scan.{big_endian};
ghost use Rattle.std.specs.Cmp.Lexicographic.{slice_cmp};
ghost use Rattle.std.specs.Ordering.{eq_by_cmp, nat_cmp};
ghost use Rattle.sip_reader.specs.Devices.Hashes.{id_hash, mixed};

use std::alloc::AllocError;
use std::cmp::Ordering;
use std::marker::Model;

/// The greatest number of bytes: with their count and a tag they take two words.
pub const INLINE_MAX: usize = 14;

/// Up to 14 bytes, with their count in 15 bytes: with an enum's tag two words.
#[derive(Clone, Copy)]
pub struct Inline {
    /// Zeros after the first `len`.
    bytes: [u8; INLINE_MAX],
    len: u8,
}

impl Model for Inline {
    ghost use Rattle.std.specs.Prelude.{ℕ, List, ◌++◌, ◌-◌, ◌≤◌, ◌≡◌, length, take, drop, replicate, refl};
    ghost use Rattle.sip_reader.specs.Devices.Padding.{IsPadded, back, front_length};
    ghost use Rattle.sip_reader.specs.declared.inline.TheConstants.{INLINE_MAX};

    ghost Value = { List ℕ };

    ghost view = { λ f. take f.len f.bytes };

    ghost invariant = { λ f. IsPadded INLINE_MAX f.len f.bytes };

    ghost inverse = { λ v. record { bytes = v ++ replicate (INLINE_MAX - length v) 0; len = length v } };

    ghost inverse_ok = { λ a h. Prim.rw (back INLINE_MAX a.len a.bytes h, front_length INLINE_MAX a.len a.bytes h) refl };
}

impl Inline {
    /// Keeps exactly these bytes, 14 at most.
    pub fn of(bytes: &[u8]) -> Inline
        requires { length bytes.now ≤ INLINE_MAX }
        ensures { result ≡ bytes.now }
    {
        Inline {
            bytes: padded(bytes),
            len: bytes.len() as u8,
        }
    }

    /// Gives the bytes that it keeps.
    pub fn as_bytes(&self) -> &[u8]
        ensures { result.now ≡ self.now }
    {
        &self.bytes[..self.len as usize]
    }

    /// Appends them to other bytes; out of memory, nothing is appended. All 14 are copied and the
    /// zeros cut off again, which needs no call where the capacity suffices.
    pub fn append_to(&self, out: &mut Vec<u8>) -> Result<(), AllocError>
        ensures ok { OnOk result (out.new.items ≡ out.old.items ++ self.now) }
        ensures err { OnErr result (out.new.items ≡ out.old.items) }
    {
        if out.capacity().wrapping_sub(out.len()) < INLINE_MAX {
            return self.append_grown(out);
        }
        out.extend_from_slice(&self.bytes)?;
        out.truncate(out.len() - (INLINE_MAX - self.len as usize));
        Ok(())
    }

    /// The same where the capacity may be too small, which is rare. Never inlined, so that the
    /// other path saves no registers.
    #[inline(never)]
    fn append_grown(&self, out: &mut Vec<u8>) -> Result<(), AllocError>
        ensures ok { OnOk result (out.new.items ≡ out.old.items ++ self.now) }
        ensures err { OnErr result (out.new.items ≡ out.old.items) }
    {
        out.extend_from_slice(self.as_bytes())
    }

    /// Compares its bytes with another's byte by byte; a text comes after each of its beginnings.
    pub fn order(&self, other: &Inline) -> Ordering
        ensures { result ≡ slice_cmp nat_cmp self.now other.now }
    {
        match order_of(&self.bytes, &other.bytes) {
            Ordering::Less => Ordering::Less,
            Ordering::Equal => self.len.cmp(&other.len),
            Ordering::Greater => Ordering::Greater,
        }
    }

    /// Gives the hash that an id of these bytes has.
    #[tactic(auto, using(crate::proofs::Hashed::hashed))]
    pub fn hash(&self) -> u64
        ensures { result ≡ id_hash self.now }
    {
        hash_by(&self.bytes, (self.len as usize).saturating_sub(8))
    }
}

/// How 14 bytes compare with 14 others, as two words each, since keys are compared all the time.
fn order_of(a: &[u8], b: &[u8]) -> Ordering
    requires these { length a.now ≡ INLINE_MAX }
    requires others { length b.now ≡ INLINE_MAX }
    ensures { result ≡ slice_cmp nat_cmp a.now b.now }
{
    let (first, other) = (word_at(a, 0), word_at(b, 0));
    if first != other {
        return first.cmp(&other);
    }
    // the last eight bytes: two of them are compared again, so that no byte is read alone
    let (last, another) = (word_at(a, 6), word_at(b, 6));
    last.cmp(&another)
}

/// The bytes and zeros after them.
fn padded(bytes: &[u8]) -> [u8; INLINE_MAX]
    requires { length bytes.now ≤ INLINE_MAX }
    ensures { result ≡ bytes.now ++ replicate (INLINE_MAX - length bytes.now) 0 }
{
    let len = bytes.len();
    if len >= 8 {
        padded_by_ends(bytes, 8)
    } else if len >= 4 {
        padded_by_ends(bytes, 4)
    } else if len >= 2 {
        padded_by_ends(bytes, 2)
    } else {
        padded_by_ends(bytes, len)
    }
}

/// The same, where the first `end` bytes and the last `end` cover all. If the compiler knows
/// `end`, the copies need no call.
#[inline(always)]
fn padded_by_ends(bytes: &[u8], end: usize) -> [u8; INLINE_MAX]
    requires few { length bytes.now ≤ INLINE_MAX }
    requires within { end ≤ length bytes.now }
    requires all { length bytes.now ≤ end + end }
    ensures { result ≡ bytes.now ++ replicate (INLINE_MAX - length bytes.now) 0 }
{
    let len = bytes.len();
    let mut whole = [0; INLINE_MAX];
    whole[..end].copy_from_slice(&bytes[..end]);
    whole[len - end..len].copy_from_slice(&bytes[len - end..]);
    whole
}

/// An odd number that spreads numbers which follow each other: 2^64 over the golden ratio.
const SPREAD: u64 = 0x9E37_79B9_7F4A_7C15;

/// The hash of bytes, as `Inline::hash` computes it.
#[tactic(auto, using(crate::proofs::Hashed::hashed_whole))]
pub(crate) fn hash_of(bytes: &[u8]) -> u64
    ensures { result ≡ id_hash bytes.now }
{
    if bytes.len() < 8 {
        return Inline::of(bytes).hash();
    }
    hash_by(bytes, bytes.len() - 8)
}

/// The hash of bytes, by the first eight of them and the eight from a place on.
fn hash_by(bytes: &[u8], last: usize) -> u64
    requires { last + 8 ≤ length bytes.now }
    ensures { result ≡ mixed (big_endian 0 (take 8 bytes.now))
        (big_endian 0 (take 8 (drop last bytes.now))) }
{
    let first = word_at(bytes, 0).wrapping_mul(SPREAD);
    let both = first.wrapping_add(word_at(bytes, last));
    both.wrapping_mul(SPREAD) / 4_294_967_296
}

/// The number that the eight bytes from a place on spell, the first the highest.
fn word_at(bytes: &[u8], i: usize) -> u64
    requires { i + 8 ≤ length bytes.now }
    ensures { result ≡ big_endian 0 (take 8 (drop i bytes.now)) }
{
    u64::from_be_bytes([
        bytes[i],
        bytes[i + 1],
        bytes[i + 2],
        bytes[i + 3],
        bytes[i + 4],
        bytes[i + 5],
        bytes[i + 6],
        bytes[i + 7],
    ])
}
