//! The segments of one side of a connection, put in order.

ghost use Rattle.std.specs.Prelude.{◌≡◌, ◌+◌, ◌^◌, ◌<◌, ◌≤◌, ◌↔◌, ◌∷◌, [], ℕ, List, None, true, false, length, IfOk, IfSome, IfNone, OnOk, OnErr};
ghost use Rattle.capture_streams.specs.Streams.{Gives, IsNear, byte_at, byte_of, is_passed, needed};
ghost use Rattle.capture_streams.specs.Streams.{Segment as Came};

use std::alloc::{AllocError, Global};
use std::marker::Model;

/// Numbers of bytes begin again here (RFC 9293, sequence numbers).
const WRAP: u64 = 4_294_967_296;

/// Bytes of a stream that were captured in one packet, and the position of the first.
pub struct Segment {
    at: u64,
    bytes: Vec<u8>,
}

impl Drop for Segment {
    fn drop(self) {
        let Segment { at: _, bytes: _ } = self;
    }
}

impl Model for Segment {
    ghost use Rattle.capture_streams.specs.Streams.{Segment as Came};

    ghost Value = { Came };

    ghost use Rattle.std.specs.Prelude.{◌+◌, ◌^◌, ◌<◌, length};

    ghost view = { λ s. record { at = s.at; bytes = s.bytes.items } };

    ghost invariant = { λ s. s.at + length s.bytes.items < 2 ^ 64 };
}

impl Segment {
    /// The bytes from a position on.
    fn new(alloc: Global, at: u64, bytes: &[u8]) -> Result<Segment, AllocError>
        requires { at + length bytes.now < 2 ^ 64 }
        ensures { IfOk result (λ s. s ≡ record { at = at; bytes = bytes.now }) }
    {
        Ok(Segment {
            at,
            bytes: Vec::from_slice(alloc, bytes)?,
        })
    }

    /// The byte that it has at a position.
    fn byte_of(&self, position: u64) -> Option<u8>
        ensures value { result ≡ byte_of self.now position }
        ensures small { IfSome result (λ b. position + 1 < 2 ^ 64) }
    {
        let index = position.checked_sub(self.at)?;
        self.bytes.get(index as usize).copied()
    }

    /// Whether all its bytes lie before a position.
    fn is_passed(&self, position: u64) -> bool
        ensures { result ≡ is_passed position self.now }
    {
        self.at + self.bytes.len() as u64 <= position
    }
}

/// One side of a connection: the position of the byte that is given next, and the segments that came, as long as they are needed.
pub struct Stream {
    next: u64,
    waiting: Vec<Segment>,
}

impl Drop for Stream {
    fn drop(self) {
        let Stream {
            next: _,
            waiting: _,
        } = self;
    }
}

impl Model for Stream {
    ghost use Rattle.capture_streams.specs.Streams.{Received};

    ghost Value = { Received };

    ghost view = { λ s. record { next = s.next; waiting = s.waiting.items } };
}

impl Stream {
    /// A stream whose first byte has this number. Positions are numbers that don't begin again.
    pub fn new(alloc: Global, number: u32) -> Stream
        ensures { result ≡ record { next = 2 ^ 32 + number; waiting = [] } }
    {
        Stream {
            next: WRAP + u64::from(number),
            waiting: Vec::new(alloc),
        }
    }

    /// The position of the byte that is given next.
    pub fn position(&self) -> u64
        ensures { result ≡ self.now.next }
    {
        self.next
    }

    /// How many segments are kept.
    pub fn waiting(&self) -> usize
        ensures { result ≡ length self.now.waiting }
    {
        self.waiting.len()
    }

    /// Takes a segment. Where there is no memory for it nothing that is given changes.
    pub fn put(&mut self, alloc: Global, at: u64, bytes: &[u8]) -> Result<(), AllocError>
        requires { at + length bytes.now < 2 ^ 64 }
        ensures given { OnOk result ((later : List Came) (given : List ℕ) → Gives self.new later given ↔ Gives self.old (record { at = at; bytes = bytes.now } ∷ later) given) }
        ensures same { OnErr result ((later : List Came) (given : List ℕ) → Gives self.new later given ↔ Gives self.old later given) }
        ensures still { self.new.next ≡ self.old.next }
    {
        let segment = Segment::new(alloc, at, bytes)?;
        forget(&mut self.waiting, self.next);
        self.waiting.push(segment)?;
        Ok(())
    }

    /// Lets go of the segments of which no byte is needed any more. Nothing that is given changes.
    pub fn settle(&mut self, alloc: Global)
        ensures given { (later : List Came) (given : List ℕ) → Gives self.new later given ↔ Gives self.old later given }
        ensures kept { self.new.waiting ≡ needed self.old.next self.old.waiting }
        ensures still { self.new.next ≡ self.old.next }
    {
        forget(&mut self.waiting, self.next);
        release(alloc, &mut self.waiting);
    }

    /// Gives the next byte, as soon as it came.
    pub fn next(&mut self) -> Option<u8>
        ensures some { IfSome result (λ b. (later : List Came) (given : List ℕ) → Gives self.new later given ↔ Gives self.old later (b ∷ given)) }
        ensures none { IfNone result ((byte_at self.old.waiting self.old.next ≡ None) × (self.new ≡ self.old)) }
    {
        let byte = first_byte(&self.waiting, self.next)?;
        self.next += 1;
        Some(byte)
    }

    /// The next byte is missing for good, where it didn't come: goes on to the one after it. Gives whether it is missing; where positions end
    /// nothing is.
    pub fn skip(&mut self) -> bool
        ensures missing { result ≡ true → byte_at self.old.waiting self.old.next ≡ None }
        ensures goes { result ≡ true → self.new ≡ record self.old { next = self.old.next + 1 } }
        ensures stays { result ≡ false → self.new ≡ self.old }
        ensures told { byte_at self.old.waiting self.old.next ≡ None → self.old.next + 1 < 2 ^ 64 → result ≡ true }
    {
        if first_byte(&self.waiting, self.next).is_some() {
            return false;
        }
        match self.next.checked_add(1) {
            Some(next) => {
                self.next = next;
                true
            }
            None => false,
        }
    }
}

/// Lets go of the segments of which all bytes lie before a position.
fn forget(waiting: &mut Vec<Segment>, next: u64)
    ensures { waiting.new.items ≡ needed next waiting.old.items }
{
    waiting.retain(|segment| !segment.is_passed(next));
}

/// Gives back the memory of a list that is empty.
fn release(alloc: Global, waiting: &mut Vec<Segment>)
    ensures { waiting.new.items ≡ waiting.old.items }
{
    if waiting.is_empty() {
        *waiting = Vec::new(alloc);
    }
}

/// The byte at a position, by the first segment that has one there.
fn first_byte(waiting: &[Segment], position: u64) -> Option<u8>
    ensures value { result ≡ byte_at waiting.now position }
    ensures small { IfSome result (λ b. position + 1 < 2 ^ 64) }
{
    for segment in waiting {
        if let Some(byte) = segment.byte_of(position) {
            return Some(byte);
        }
    }
    None
}

/// The position of a number that lies nearest to another position; none where positions end.
pub fn position_near(next: u64, number: u32) -> Option<u64>
    ensures { IfSome result (λ p. IsNear next number p) }
{
    let here = (next - next % WRAP).checked_add(u64::from(number))?;
    if here > next && here - next > WRAP / 2 {
        here.checked_sub(WRAP)
    } else if next > here && next - here > WRAP / 2 {
        here.checked_add(WRAP)
    } else {
        Some(here)
    }
}
