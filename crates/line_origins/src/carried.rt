//! What came of a line as recorded.

ghost use Rattle.std.specs.Prelude.{◌≡◌, IfOk, Some};
ghost use Rattle.line_origins.specs.Carried.{carried_word};

use std::fmt;

/// What came of a line: with what its response says was done the rules' answer agrees, or that was
/// carried out in its place, or it couldn't be.
#[derive(Clone, Copy)]
pub enum Carried {
    /// What the rules say was done: the response says nothing of it, or the answer agrees.
    AsRuled,
    /// What the response says was done, or nothing was to be.
    AsTold,
    /// What the response says couldn't be done.
    Not,
}

impl fmt::Display for Carried {
    ghost output = { λ carried. Some (carried_word carried) };

    fn fmt<W: fmt::Write>(&self, f: &mut fmt::Formatter<W>) -> fmt::Result {
        match self {
            Carried::AsRuled => f.write_str("ruled"),
            Carried::AsTold => f.write_str("told"),
            Carried::Not => f.write_str("not"),
        }
    }
}
