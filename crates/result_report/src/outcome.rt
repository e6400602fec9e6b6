//! The outcome of a run.

ghost use Rattle.std.specs.Prelude.{◌≡◌};

use circ_records::Records;
use sip_answer::Answer;
use std::marker::Model;

/// The outcome of a run: the records after the last line, and of each line, in the order of the
/// journal, its answer, where it has one, and the number of the attempt whose answer that is,
/// counted from 0. The answers are borrowed by the end of the run, so that none is copied.
#[derive(Drop)]
pub struct Outcome<'e> {
    pub records: LastRecords<'e>,
    pub answers: Vec<Option<&'e Answer>>,
    pub attempts: Vec<u32>,
}

/// The records after the last line, by their keys: borrowed from the end of the run, or collected
/// from it.
#[derive(Drop)]
pub struct LastRecords<'e> {
    pub(crate) held: RecordsFrom<'e>,
}

/// Where these records are.
#[derive(Drop)]
pub(crate) enum RecordsFrom<'e> {
    Lent(&'e Records),
    Collected(Records),
}

impl<'e> Model for LastRecords<'e> {
    ghost use Rattle.circ_records.specs.Records.{Entries};
    ghost use Rattle.result_report.specs.LastRecords.{entries_held};

    ghost Value = { Entries };

    ghost view = { λ r. entries_held r.held };
}

impl<'e> LastRecords<'e> {
    /// Gives the records that the run left, all of them.
    pub fn as_records(&self) -> &Records
        ensures { result.now ≡ self.now }
    {
        match &self.held {
            RecordsFrom::Lent(records) => records,
            RecordsFrom::Collected(records) => records,
        }
    }
}
