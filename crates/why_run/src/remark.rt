//! What is said of a line that is wanted.

ghost use Rattle.std.specs.Prelude.{Some};
ghost use Rattle.why_run.specs.Remarks.{remark_text};

use std::fmt;

/// What is said of a line that is wanted, by its number.
#[derive(Drop)]
pub enum Remark {
    /// The journal lacks it.
    NoLine { number: u64 },
    /// It has no answer, so there is nothing to explain.
    NoAnswer { number: u64, reason: String },
    /// A replay of its test case gives another answer.
    NoCase { number: u64 },
}

/// The line that is printed.
impl fmt::Display for Remark {
    ghost output = { λ remark. Some (remark_text remark) };

    fn fmt<W: fmt::Write>(&self, f: &mut fmt::Formatter<W>) -> fmt::Result {
        match self {
            Remark::NoLine { number } => write!(f, "error: the journal has no line {number}\n"),
            Remark::NoAnswer { number, reason } => write!(
                f,
                "error: line {number} has no answer: passed over: {reason}\n"
            ),
            Remark::NoCase { number } => write!(
                f,
                "error: line {number} gives no case: alone it is answered otherwise\n"
            ),
        }
    }
}
