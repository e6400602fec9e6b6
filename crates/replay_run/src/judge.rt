//! The inputs of a run, judged: the first fault of policy, tables and journal, in this order.

ghost use Rattle.std.specs.Prelude.{◌≡◌, List, Result};
ghost use Rattle.record_tables.specs.Base.{base_of};
ghost use Rattle.schema.specs.Texts.{Texts, texts_of};
ghost use Rattle.journal_table.specs.Entry.{Entry};
ghost use Rattle.journal_table.specs.Journal.{Gives, journal_of};
ghost use Rattle.journal_table.specs.declared.error.JournalError.{JournalError};
ghost use Rattle.read_set.specs.declared.way.Way.{Way};
ghost use Rattle.replay_run.specs.Judgements.{first_read, with_base};
ghost use Rattle.replay_run.specs.OneThread.{judgement};
ghost use Rattle.replay_run.specs.Prepared.{IsBase, IsSound};

use crate::fault::Fault;
use crate::inputs::Inputs;
use crate::prepared::Sound;
use circ_policy::Policy;
use circ_records::Records;
use journal_table::{Journal, JournalError, number_of};
use record_tables::{BaseError, read_base};
use schema::Tables;
use std::alloc::Global;
use std::thread::{Threads, join};

/// Gives the policy, the base and the journal that the inputs say, or exactly their first fault.
#[tactic(auto, unfolding(crate::specs::Judgements::judgement_on))]
pub fn judge(alloc: Global, inputs: &Inputs) -> Result<Sound<'_>, Fault>
    ensures { IsSound inputs.now.way result (judgement inputs.now) }
{
    match Policy::read(alloc, inputs.policy.as_slice()) {
        Ok(policy) => {
            let journal = Journal::read(alloc, inputs.journal.as_slice());
            let base = read_base(alloc, &policy, &inputs.tables, first_of(&journal));
            accept(policy, base, journal)
        }
        Err(error) => Err(Fault::from(error)),
    }
}

/// Gives just what `judge` gives; tables and journal are read side by side. The tables are judged
/// by the number of the journal's first line, which is guessed until the journal is read.
#[tactic(auto, unfolding(crate::specs::Judgements::judgement_on))]
pub fn judge_side_by_side<'i, R: Threads + Sync>(
    rt: &R,
    alloc: Global,
    inputs: &'i Inputs,
) -> Result<Sound<'i>, Fault>
    ensures { IsSound inputs.now.way result (judgement inputs.now) }
{
    match Policy::read(alloc, inputs.policy.as_slice()) {
        Ok(policy) => {
            let (tables, bytes) = (&inputs.tables, inputs.journal.as_slice());
            let guess = likely_first(bytes);
            let (early, journal) = join(
                rt,
                || -> Result<Records, BaseError>
                    ensures { IsBase policy (texts_of tables.entry.now) guess result }
                { read_base(alloc, &policy, tables, guess) },
                || -> Result<Journal, JournalError>
                    ensures { Gives result (journal_of bytes.entry.now) }
                { Journal::read(alloc, bytes) },
            );
            let first = first_of(&journal);
            let base = if guess == first {
                early
            } else {
                read_base(alloc, &policy, tables, first)
            };
            accept(policy, base, journal)
        }
        Err(error) => Err(Fault::from(error)),
    }
}

/// The number that most journals begin with: the one at the start of the second line of the text.
fn likely_first(journal: &[u8]) -> Option<u64> {
    let row = journal.split(|byte| *byte == b'\n').nth(1)?;
    number_of(row.split(|byte| *byte == b',').next()?)
}

/// The number of the first line, where the journal was read and has one.
fn first_of(journal: &Result<Journal<'_>, JournalError>) -> Option<u64>
    ensures { result ≡ first_read journal.now }
{
    match journal {
        Ok(journal) => journal.first(),
        Err(_) => None,
    }
}

/// The inputs, where neither the base nor the journal is refused; else the base's fault or, where
/// it has none, the journal's. The first number of a journal that memory didn't suffice for isn't
/// known, and so no fault of the base.
fn accept<'i>(
    policy: Policy,
    base: Result<Records, BaseError>,
    journal: Result<Journal<'i>, JournalError>,
) -> Result<Sound<'i>, Fault>
    ensures { (way : Way) (tables : Texts) (read : Result (List Entry) JournalError) → Gives journal.entry read → IsBase policy tables (first_read journal.entry) base
        → IsSound way result (with_base way policy read (base_of policy tables (first_read read))) }
{
    match journal {
        Ok(journal) => match base {
            Ok(base) => Ok(Sound {
                policy,
                base,
                journal,
            }),
            Err(error) => Err(Fault::from(error)),
        },
        Err(JournalError::Memory) => Err(Fault::Memory),
        Err(refused) => match base {
            Ok(_) => Err(Fault::from(refused)),
            Err(broken) => Err(Fault::from(broken)),
        },
    }
}
