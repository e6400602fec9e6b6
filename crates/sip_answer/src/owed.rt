//! What is owed.

ghost use Rattle.std.specs.Prelude.{◌≡◌, IfOk};

use std::alloc::{AllocError, Global};
use std::marker::Model;

/// What a patron owes, in hundredths. The number is on the heap: inline it would make every answer
/// larger, and few kinds of answers have one.
pub struct Owed {
    hundredths: Box<u128>,
}

impl Drop for Owed {
    fn drop(self) {
        let Owed { hundredths: _ } = self;
    }
}

impl Model for Owed {
    ghost use Rattle.std.specs.Prelude.{ℕ};

    ghost Value = { ℕ };

    ghost view = { λ o. o.hundredths.value };
}

impl Owed {
    /// Keeps a debt of exactly this number of hundredths. Takes memory.
    pub fn new(alloc: Global, hundredths: u128) -> Result<Owed, AllocError>
        ensures { IfOk result (λ o. o ≡ hundredths) }
    {
        let hundredths = Box::new(alloc, hundredths)?;
        Ok(Owed { hundredths })
    }

    /// Gives the hundredths of which it was made.
    pub fn hundredths(&self) -> u128
        ensures { result ≡ self.now }
    {
        *self.hundredths
    }
}
