//! What is doubtful in the recorded responses.

use super::LinesDoubt;
use circ_policy::DueForm;
use sip_answer::{Answer, Deed, deed_of, differences};
use sip_reader::Reading;
use std::alloc::{AllocError, Global};

/// It is doubted if more than one in this many lines has a wrong checksum or a 96 as its response.
const TWENTIETH: u64 = 20;

/// What is counted of lines with their recorded responses.
#[derive(Clone, Copy)]
pub struct Responses {
    lines: u64,
    /// The lines with a wrong checksum, and those whose response is a 96.
    resent: u64,
    /// The responses that lend.
    lent: u64,
    /// Those of them that name no due day that can be read.
    undated: u64,
}

impl Responses {
    /// Begins with no line counted.
    pub fn none() -> Responses {
        Responses {
            lines: 0,
            resent: 0,
            lent: 0,
            undated: 0,
        }
    }

    /// Counts a line: what its request was read as, and what is recorded as its response. The error
    /// is that memory ran out.
    pub fn count(
        &mut self,
        alloc: Global,
        form: DueForm,
        reading: &Reading,
        response: &[u8],
    ) -> Result<(), AllocError> {
        self.lines = self.lines.saturating_add(1);
        match reading {
            Reading::Asked(request) => {
                self.count_deed(&deed_of(alloc, form, &request.act, response)?)
            }
            Reading::BadSum => self.count_resent(true),
            Reading::Passed(_) | Reading::Unread(_) => {
                self.count_resent(is_resend(alloc, response)?)
            }
        }
        Ok(())
    }

    /// Counts what a response says was done.
    fn count_deed(&mut self, deed: &Option<Deed>) {
        match deed {
            Some(Deed::NotTaken) => self.count_resent(true),
            Some(Deed::Lent(told)) => self.count_lent(told.due.is_some()),
            _ => {}
        }
    }

    fn count_resent(&mut self, is_resent: bool) {
        if is_resent {
            self.resent = self.resent.saturating_add(1);
        }
    }

    /// Counts a response that lends, whose due day can be read or not.
    fn count_lent(&mut self, is_dated: bool) {
        self.lent = self.lent.saturating_add(1);
        if !is_dated {
            self.undated = self.undated.saturating_add(1);
        }
    }

    /// Gives the doubt exactly if a loan's response names no day that can be read.
    pub fn undated_doubt(&self) -> Option<LinesDoubt> {
        let Responses { undated, lent, .. } = *self;
        if undated > 0 {
            Some(LinesDoubt::Undated { undated, lent })
        } else {
            None
        }
    }

    /// Gives the doubt exactly if more than a twentieth of the lines have a wrong checksum or a 96
    /// as their response.
    pub fn resent_doubt(&self) -> Option<LinesDoubt> {
        let Responses { resent, lines, .. } = *self;
        if resent > lines / TWENTIETH {
            Some(LinesDoubt::Resent { resent, lines })
        } else {
            None
        }
    }
}

/// Whether a response is a 96.
fn is_resend(alloc: Global, response: &[u8]) -> Result<bool, AllocError> {
    Ok(differences(alloc, &Answer::Resend, response)?.is_empty())
}
