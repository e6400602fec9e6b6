ghost use Rattle.std.specs.Prelude.{◌≡◌, ◌++◌, ◌∷◌, [], IfOk, OnOk, OnErr, length, IsTrue, ◌↔◌};

use sip_reader::{Id, Text};
use std::alloc::{AllocError, Global};
use std::marker::Model;

/// An entry of the queue of an item.
pub struct Hold {
    pub patron: Id,
    /// Where the patron wants to pick it up; empty where no place was given.
    pub pickup: Text,
}

impl Drop for Hold {
    fn drop(self) {
        let Hold {
            patron: _,
            pickup: _,
        } = self;
    }
}

/// A clone is the same hold.
impl Clone for Hold {
    ghost use Rattle.std.specs.Prelude.{◌≡◌};

    ghost is_clone = { λ x y. y ≡ x };

    fn clone(&self) -> Result<Hold, AllocError> {
        let patron = self.patron.clone()?;
        let pickup = self.pickup.clone()?;
        Ok(Hold { patron, pickup })
    }
}

/// The longest queue of an item, in holds: positions in it have four digits.
pub const QUEUE_MAX: usize = 9_999;

/// The queue of an item: who waits for it, in order.
pub struct Holds {
    holds: Vec<Hold>,
}

impl Drop for Holds {
    fn drop(self) {
        let Holds { holds: _ } = self;
    }
}

impl Model for Holds {
    ghost use Rattle.std.specs.Prelude.{List};
    ghost use Rattle.circ_records.specs.declared.holds.Hold.{Hold};

    ghost Value = { List Hold };

    ghost view = { λ h. h.holds.items };
}

impl Holds {
    /// Makes the empty queue.
    pub fn new(alloc: Global) -> Holds
        ensures { result ≡ [] }
    {
        Holds {
            holds: Vec::new(alloc),
        }
    }

    /// Makes the queue of exactly these holds, in their order.
    pub fn from_vec(holds: Vec<Hold>) -> Holds
        ensures { result ≡ holds.items }
    {
        Holds { holds }
    }

    /// Puts one more hold at the end; out of memory, the queue stays as it is.
    pub fn push(&mut self, hold: Hold) -> Result<(), AllocError>
        ensures ok { OnOk result (self.new ≡ self.old ++ hold ∷ []) }
        ensures err { OnErr result (self.new ≡ self.old) }
    {
        self.holds.push(hold)?;
        Ok(())
    }

    /// Makes a queue of the same holds in the same order. Most are empty.
    #[inline(always)]
    pub fn copy(&self, alloc: Global) -> Result<Holds, AllocError>
        ensures { IfOk result (λ h. h ≡ self.now) }
    {
        if self.is_empty() {
            return Ok(Holds::new(alloc));
        }
        let holds = copy_holds(alloc, self.holds.as_slice())?;
        Ok(Holds { holds })
    }

    pub(crate) fn allocator(&self) -> Global {
        *self.holds.allocator()
    }

    /// Gives how many holds there are.
    pub fn len(&self) -> usize
        ensures { result ≡ length self.now }
    {
        self.holds.len()
    }

    /// True exactly if there is no hold.
    pub fn is_empty(&self) -> bool
        ensures { IsTrue result ↔ (self.now ≡ []) }
    {
        self.holds.is_empty()
    }

    /// Gives all holds in their order.
    pub fn as_slice(&self) -> &[Hold]
        ensures { result.now ≡ self.now }
    {
        self.holds.as_slice()
    }
}

fn copy_holds(alloc: Global, holds: &[Hold]) -> Result<Vec<Hold>, AllocError>
    ensures { IfOk result (λ v. v.items ≡ holds.now) }
{
    let mut copies = Vec::new(alloc);
    for hold in holds {
        copies.push(hold.clone()?)?;
    }
    Ok(copies)
}
