//! What a line writes and answers, given what it has read.

ghost use Rattle.std.specs.Prelude.{◌≡◌, map, option_copied};
ghost use Rattle.std.specs.List.Sorted.{IsStrictlySortedBy};
ghost use Rattle.circ_records.specs.Keys.{key_cmp};
ghost use Rattle.read_set.specs.Settling.{Settles};

use crate::effect::Writes;
use crate::notes::{Note, Notes};
use crate::plan::PlanName;
use circ_records::{Key, Record};
use sip_answer::Answer;
use std::marker::{Model, PhantomData};

/// What a line of a plan writes and answers, and the notes that determine it.
pub struct Version<J: PlanName> {
    line: u64,
    reads: Vec<Note>,
    writes: Writes,
    ended: Ended,
    of: PhantomData<J>,
}

/// How an attempt has ended. Its number comes first, so that it shares a machine word with the discriminant: versions are kept until
/// the run ends.
pub(crate) enum Ended {
    Unanswered { attempt: u32 },
    Answered { attempt: u32, answer: Answer },
}

impl Drop for Ended {
    fn drop(self) {
        match self {
            Ended::Unanswered { attempt: _ } => {}
            Ended::Answered {
                attempt: _,
                answer: _,
            } => {}
        }
    }
}

impl<J: PlanName> Drop for Version<J> {
    fn drop(self) {
        let Version {
            line: _,
            reads: _,
            writes: _,
            ended: _,
            of: _,
        } = self;
    }
}

impl<J: PlanName> Model for Version<J> {
    ghost use Rattle.read_set.specs.Settling.{Contents, Settles};

    ghost Value = { Contents };

    ghost use Rattle.read_set.specs.Devices.Ended.{answer_in, attempt_in};

    ghost view = { λ v. record { line = v.line; attempt = attempt_in v.ended; reads = v.reads.items; writes = v.writes; answer = answer_in v.ended } };

    ghost invariant = { λ v. Settles J.plan v.line v.reads.items v.writes (answer_in v.ended) };
}

impl<J: PlanName> Version<J> {
    /// The version of an attempt at a line: what the line writes and answers if these notes are true.
    pub fn new(
        line: u64,
        attempt: u32,
        reads: Notes,
        writes: Writes,
        answer: Option<Answer>,
    ) -> Version<J>
        requires { Settles J.plan line reads writes answer }
        ensures { result ≡ record { line = line; attempt = attempt; reads = reads; writes = writes; answer = answer } }
    {
        // versions are kept until the run ends
        let mut writes = writes;
        writes.shrink_to_fit();
        let ended = match answer {
            Some(answer) => Ended::Answered { attempt, answer },
            None => Ended::Unanswered { attempt },
        };
        Version {
            line,
            reads: reads.into_vec(),
            writes,
            ended,
            of: PhantomData,
        }
    }

    /// The number of its line.
    pub fn line(&self) -> u64
        ensures { result ≡ self.now.line }
    {
        self.line
    }

    /// The attempt at the line, counted from 0.
    pub fn attempt(&self) -> u32
        ensures { result ≡ self.now.attempt }
    {
        match &self.ended {
            Ended::Unanswered { attempt } => *attempt,
            Ended::Answered { attempt, answer: _ } => *attempt,
        }
    }

    /// What the line has read. This determines what it writes and answers.
    pub fn reads(&self) -> &[Note]
        ensures reads { result.now ≡ self.now.reads }
        ensures settles { Settles J.plan self.now.line self.now.reads self.now.writes self.now.answer }
    {
        self.reads.as_slice()
    }

    /// The records that the line writes, with their keys, rising.
    pub fn writes(&self) -> &[(Key, Record)]
        ensures writes { result.now ≡ self.now.writes }
        ensures rising { IsStrictlySortedBy key_cmp (map (λ e. e.0) self.now.writes) }
    {
        self.writes.as_slice()
    }

    /// The line's answer, if it has one.
    pub fn answer(&self) -> Option<&Answer>
        ensures { option_copied result ≡ self.now.answer }
    {
        match &self.ended {
            Ended::Unanswered { attempt: _ } => None,
            Ended::Answered { attempt: _, answer } => Some(answer),
        }
    }
}

/// What a line needs next, given what it has read.
#[derive(Drop)]
pub enum Need<J: PlanName> {
    /// The record at a key that isn't noted.
    Key(Key),
    /// Nothing more: this is the line's version.
    Done(Version<J>),
}
