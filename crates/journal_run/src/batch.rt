//! What is found, taken into a journal.

ghost use Rattle.std.specs.Prelude.{◌≡◌, IfErr, IfOk, OnOk, map};
ghost use Rattle.journal_run.specs.Found.{said_in, said_of};
ghost use Rattle.journal_run.specs.Making.{StopsTaking, TakesAll, TakesFound};

use crate::finding::Finding;
use crate::making::{Making, Taken};
use crate::place::{LineHead, LogPlace};
use crate::stop::MakingError;
use std::alloc::{AllocError, Global};

/// How many responses of each kind are reported.
const TOLD: u64 = 3;

impl Making {
    /// Takes what is found next. Of a report nothing is taken.
    pub fn take_found(&mut self, one: &Finding) -> Result<Taken, AllocError>
        ensures { IfOk result (λ taken. TakesFound taken (said_of one.now) self.old self.new) }
    {
        match one {
            Finding::Message {
                side,
                connection,
                message,
            } => {
                let taken = self.take(*side, connection.as_slice(), message.as_slice())?;
                Ok(taken)
            }
            Finding::Over(connection) => {
                self.over(connection.as_slice())?;
                Ok(Taken::Paired)
            }
            Finding::Note(_) => Ok(Taken::Paired),
        }
    }
}

/// Takes all that was found at a place, and adds what is to be reported of it. A message that is refused is an error.
pub fn take_all(
    alloc: Global,
    place: LogPlace<'_>,
    batch: &[Finding],
    making: &mut Making,
    notes: &mut String,
) -> Result<(), MakingError>
    ensures took { OnOk result (TakesAll (said_in batch.now) making.old making.new) }
    ensures stops { IfErr result (StopsTaking (said_in batch.now) making.old making.new) }
{
    for one in batch {
        take_one(alloc, place, one, making, notes)?;
    }
    Ok(())
}

/// Takes one of them.
fn take_one(
    alloc: Global,
    place: LogPlace<'_>,
    one: &Finding,
    making: &mut Making,
    notes: &mut String,
) -> Result<(), MakingError>
    ensures took { OnOk result (TakesAll (said_of one.now) making.old making.new) }
    ensures stops { IfErr result (StopsTaking (said_of one.now) making.old making.new) }
{
    if let Finding::Note(text) = one {
        notes.push_str(text.as_str())?;
    }
    match making.take_found(one)? {
        Taken::Paired => Ok(()),
        Taken::Misfit => {
            let count = making.pairing.mismatched();
            Ok(tell(place, one, "a response to another request", count, notes)?)
        }
        Taken::Unasked => {
            let count = making.pairing.unasked();
            Ok(tell(place, one, "a response without a request", count, notes)?)
        }
        Taken::Refused(why) => Err(MakingError::of_line(alloc, place, why)),
    }
}

/// Reports what a response is, if it is one of the first; this is its count.
fn tell(
    place: LogPlace<'_>,
    one: &Finding,
    what: &str,
    count: u64,
    notes: &mut String,
) -> Result<(), AllocError> {
    match one {
        Finding::Message { message, .. } if count <= TOLD => {
            let head = LineHead(message.as_slice());
            write!(notes, "{place}: {what}: {head}\n")
        }
        _ => Ok(()),
    }
}
