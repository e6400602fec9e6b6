//! Words as they are written.

use std::alloc::{AllocError, Global};

/// A text that grows. What is added after a failure is lost, and `finish` returns the failure.
pub struct Wording {
    text: Vec<u8>,
    failed: bool,
}

impl Drop for Wording {
    fn drop(self) {
        let Wording { text: _, failed: _ } = self;
    }
}

impl Wording {
    /// A text with nothing in it.
    pub fn new(alloc: Global) -> Wording {
        Wording {
            text: Vec::new(alloc),
            failed: false,
        }
    }

    /// Adds to its end.
    pub fn add(&mut self, more: &[u8]) {
        self.failed |= self.text.extend_from_slice(more).is_err();
    }

    /// Whether it has nothing in it.
    pub fn is_empty(&self) -> bool {
        self.text.is_empty()
    }

    /// The text.
    pub fn finish(self) -> Result<Vec<u8>, AllocError> {
        let Wording { text, failed } = self;
        if failed { Err(AllocError) } else { Ok(text) }
    }
}
