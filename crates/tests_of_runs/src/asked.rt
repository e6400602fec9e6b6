//! What an outside in memory was asked.

use outside::{Failure, FileId};

/// What was asked for.
#[derive(Clone, Copy)]
pub enum Asked {
    /// Which file is at the path.
    Find(Option<FileId>),
    Read,
    Create,
    /// The text is the other path.
    Rename,
    Remove,
    /// Whether the text was taken, by standard output or standard error.
    Print(bool),
    Tell(bool),
}

/// What was asked for, of which path, with which text, and what was answered.
pub struct Call {
    pub asked: Asked,
    pub path: Vec<u8>,
    pub text: Vec<u8>,
    pub answer: Result<(), Failure>,
}

impl Drop for Call {
    fn drop(self) {
        let Call {
            asked: _,
            path: _,
            text: _,
            answer: _,
        } = self;
    }
}
