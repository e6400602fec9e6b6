//! Values that share their memory with their copies.

ghost use Rattle.std.specs.Borrow.{sem};
ghost use Rattle.std.specs.Prelude.{◌≡◌, ◌⊎◌, IfOk};
ghost use Rattle.circ_records.specs.Devices.Sharing.{LendsMade};

use std::alloc::{AllocError, Global};
use std::marker::Model;
use std::ops::Deref;
use std::sync::Arc;

/// A reference-counted value: its copies share its memory.
pub struct Shared<T> {
    held: Arc<T>,
}

impl<T: Drop> Drop for Shared<T> {
    fn drop(self) {
        let Shared { held: _ } = self;
    }
}

impl<T> Model for Shared<T> {
    ghost use Rattle.std.specs.Arc.{arc_value};

    ghost Value = { T };

    ghost coded = { T.code };

    ghost view = { λ s. arc_value s.held };
}

impl<T: Drop> Shared<T> {
    /// Keeps exactly this value, in memory that its copies may share.
    pub fn new(alloc: Global, value: T) -> Result<Shared<T>, AllocError>
        ensures { IfOk result (λ s. s ≡ value) }
    {
        match Arc::new(alloc, value) {
            Ok(held) => Ok(Shared { held }),
            Err(_) => Err(AllocError),
        }
    }

    /// Gives the value that it was made with.
    pub fn get(&self) -> &T
        ensures { result.now ≡ self.now }
    {
        Deref::deref(&self.held)
    }

    /// Gives the same value, in the same memory.
    pub fn copy(&self) -> Result<Shared<T>, AllocError>
        ensures { IfOk result (λ s. s ≡ self.now) }
    {
        let held = Arc::try_clone(&self.held)?;
        Ok(Shared { held })
    }

    /// The value, to be changed: in place where no copy shares it, and else in a clone of it, which
    /// only this owner has.
    pub(crate) fn make_mut(&mut self) -> Result<&mut T, AllocError>
    where
        T: Clone,
        ensures* writes_back { sem 𝓛 (LendsMade T.row T.is_clone self.entry result) }
        ensures value { IfOk result (λ x. (x.now ≡ self.old) ⊎ T.is_clone self.old x.now) }
    {
        Arc::make_mut(&mut self.held)
    }
}
