//! Doubtful results: the warnings after a run that ended without a fault, but whose inputs don't
//! fit each other.

ghost use Rattle.std.specs.Prelude.{◌≡◌, Some};
ghost use Rattle.whole_run.specs.Doubting.{are_none, doubt_of_sizes, doubts_text};
ghost use Rattle.whole_run.specs.Doubting.{line_text, lines_text, sizes_text};

mod judging;
mod naming;
mod reported;
mod responses;

use judging::doubts_of_lines;
use replay_run::{Inputs, Output, Sizes};
use std::alloc::Global;
use std::fmt;

/// Why a result is doubtful, in the order in which it is printed.
#[derive(Drop)]
pub struct Doubts {
    /// What its numbers alone say.
    of_sizes: Option<SizesDoubt>,
    /// What the lines say.
    of_lines: Vec<LinesDoubt>,
}

/// What the numbers of a result say against it.
#[derive(Clone, Copy)]
pub enum SizesDoubt {
    /// The journal has no line.
    NoLine,
    /// No line has an answer.
    NoAnswer { lines: u64 },
}

/// What the lines of a journal, or of the report, say against a result.
#[derive(Drop)]
pub enum LinesDoubt {
    /// No request has the policy's institution.
    Institution { id: String },
    /// How many requests name a patron, and how many of them one that the base lacks.
    Patrons { unknown: u64, named: u64 },
    /// The same of items.
    Items { unknown: u64, named: u64 },
    /// How many answers differ in ok or due from what is recorded, by the rules.
    Differing { differing: u64, answered: u64 },
    /// How many responses lend, and how many of them name no due day that can be read.
    Undated { undated: u64, lent: u64 },
    /// How many lines have a wrong checksum or a 96 as their response.
    Resent { resent: u64, lines: u64 },
    /// How many alerts differ in a checkin whose response names no hold.
    Alerts { alerts: u64 },
}

impl Doubts {
    /// Gives the doubt that the sizes of a run's output cause by their rule, and those that its
    /// lines cause, which only tests show. Out of memory, only its sizes are judged.
    pub fn of(alloc: Global, inputs: &Inputs, output: &Output) -> Doubts
        ensures { result.of_sizes ≡ doubt_of_sizes output.now.sizes }
    {
        let of_sizes = doubt_of_sizes(output.sizes);
        let of_lines = match doubts_of_lines(alloc, inputs, output) {
            Some(doubts) => doubts,
            None => Vec::new(alloc),
        };
        Doubts { of_sizes, of_lines }
    }

    /// True exactly if there is no doubt.
    pub fn are_none(&self) -> bool
        ensures { result ≡ are_none self.now }
    {
        self.of_sizes.is_none() && self.of_lines.is_empty()
    }
}

impl fmt::Display for Doubts {
    ghost output = { λ doubts. Some (doubts_text doubts) };

    fn fmt<W: fmt::Write>(&self, f: &mut fmt::Formatter<W>) -> fmt::Result {
        let sizes = SizesPart {
            doubt: self.of_sizes,
        };
        let lines = LinesPart {
            doubts: self.of_lines.as_slice(),
        };
        write!(f, "{sizes}{lines}")
    }
}

/// The line of what the numbers say, if they say something.
#[derive(Clone, Copy)]
struct SizesPart {
    doubt: Option<SizesDoubt>,
}

impl fmt::Display for SizesPart {
    ghost output = { λ part. Some (sizes_text part.doubt) };

    fn fmt<W: fmt::Write>(&self, f: &mut fmt::Formatter<W>) -> fmt::Result {
        match self.doubt {
            Some(SizesDoubt::NoLine) => {
                f.write_str("the journal has no line: is it the right file?\n")
            }
            Some(SizesDoubt::NoAnswer { lines }) => write!(
                f,
                "none of {lines} lines has an answer: passed.csv gives the reason for each.\n"
            ),
            None => f.write_str(""),
        }
    }
}

/// The lines of what lines say.
#[derive(Clone, Copy)]
struct LinesPart<'d> {
    doubts: &'d [LinesDoubt],
}

impl fmt::Display for LinesPart<'_> {
    ghost output = { λ part. Some (lines_text part.doubts.now) };

    fn fmt<W: fmt::Write>(&self, f: &mut fmt::Formatter<W>) -> fmt::Result {
        for doubt in self.doubts {
            doubt.fmt(f)?;
        }
        Ok(())
    }
}

impl fmt::Display for LinesDoubt {
    ghost output = { λ doubt. Some (line_text doubt) };

    fn fmt<W: fmt::Write>(&self, f: &mut fmt::Formatter<W>) -> fmt::Result {
        match self {
            LinesDoubt::Institution { id } => write!(
                f,
                "no request has the institution of the policy, {id} (AO): is it the policy of this library?\n"
            ),
            LinesDoubt::Patrons { unknown, named } => write!(
                f,
                "{unknown} of {named} requests that name a patron name one that patrons.csv lacks: are the ids in another form?\n"
            ),
            LinesDoubt::Items { unknown, named } => write!(
                f,
                "{unknown} of {named} requests that name an item name one that items.csv lacks: are the ids in another form?\n"
            ),
            LinesDoubt::Differing {
                differing,
                answered,
            } => write!(
                f,
                "{differing} of {answered} answers differ in ok or due: --as-recorded restores what happened at the machines.\n"
            ),
            LinesDoubt::Undated { undated, lent } => write!(
                f,
                "{undated} of {lent} responses that lend name no due day that can be read: is due_form that of the server?\n"
            ),
            LinesDoubt::Resent { resent, lines } => write!(
                f,
                "{resent} of {lines} lines have a wrong checksum or were answered by 96: was the journal edited?\n"
            ),
            LinesDoubt::Alerts { alerts } => write!(
                f,
                "{alerts} alerts differ in a checkin whose response names no hold (CV): are they of transfers?\n"
            ),
        }
    }
}

/// What its numbers alone say of a result.
fn doubt_of_sizes(sizes: Sizes) -> Option<SizesDoubt>
    ensures { result ≡ doubt_of_sizes sizes }
{
    if sizes.answered > 0 {
        return None;
    }
    Some(match sizes.passed {
        0 => SizesDoubt::NoLine,
        lines => SizesDoubt::NoAnswer { lines },
    })
}
