//! The end of a run, and what is collected from it.

ghost use Rattle.std.specs.Prelude.{◌≡◌, ◌<◌, ◌++◌, ◌^◌, ◌⊎◌, ◌↔◌, ℕ, List, Option, IfOk, IfSome, IsSome, IsTrue, OnOk, length, map, option_copied, option_map, slice_get};
ghost use Rattle.circ_records.specs.Records.{record_at};
ghost use Rattle.circ_records.specs.declared.key.Key.{Key};
ghost use Rattle.circ_records.specs.declared.record.Record.{Record};
ghost use Rattle.read_set.specs.Plans.{Planned};
ghost use Rattle.sip_answer.specs.declared.answer.Answer.{Answer};
ghost use Rattle.result_report.specs.Ends.{AreRecordsAt, HasAt, keys_named, named_keys, numbers_of};
ghost use Rattle.result_report.specs.Report.{answers_behind};

use crate::outcome::{LastRecords, Outcome, RecordsFrom};
use circ_records::{Key, Record, RecordMap, Records};
use read_set::Plan;
use sip_answer::Answer;
use std::alloc::{AllocError, Global};

/// The end of a run over a plan: what it gives of each line, by the line's number, and of the
/// records after the last. The answers may outlive it.
pub trait End<'e> {
    /// The plan of the run.
    ghost planned: { Self → Planned };

    /// The answer of each line, where it has one.
    ghost answered: { Self → ℕ → Option Answer };

    /// The attempt whose answer that is.
    ghost attempted: { Self → ℕ → ℕ };

    /// The keys of the records that each line wrote, each with the attempt that wrote it.
    ghost entered: { Self → ℕ → List (Key × ℕ) };

    /// The record at each key after the last line.
    ghost left: { Self → Key → Option Record };

    /// The plan of the run.
    fn plan(&self) -> &Plan
        ensures { result.now ≡ planned self.now };

    /// The answer of a line.
    fn answer(&self, line: u64) -> Option<&'e Answer>
        ensures { option_copied result ≡ answered self.now line };

    /// The number of the attempt whose answer that is, from 0.
    fn attempt(&self, line: u64) -> u32
        ensures { result ≡ attempted self.now line };

    /// The i-th key, from 0, of the records that a line wrote, with the attempt that wrote it; none
    /// past the last.
    fn keys_of(&self, line: u64, i: usize) -> Option<(&Key, u32)>
        ensures value { option_map (λ e. (e.0.now, e.1)) result
            ≡ slice_get (entered self.now line) i }
        ensures few { length (entered self.now line) < 2 ^ 64 };

    /// The record at a key after the last line.
    fn final_of(&self, key: &Key) -> Option<&Record>
        ensures { option_copied result ≡ left self.now key.now };

    /// All last records, where the end already has a map of them: those at the keys of the plan and
    /// of what the lines wrote.
    fn records(&self) -> Option<&'e Records>
        ensures { IfSome result (λ r. AreRecordsAt (named_keys (planned self.now) (entered self.now)) (left self.now) r.now) };
}

/// Gives the outcome of a run exactly as its end gives it: each line's answer and attempt, and the
/// records at the keys of the plan and of what the lines wrote.
pub fn collect<'e, E: End<'e>>(alloc: Global, end: &E) -> Result<Outcome<'e>, AllocError>
    ensures answers { IfOk result
        (λ o. answers_behind o.answers.items ≡ map (E.answered end.now)
        (numbers_of (E.planned end.now))) }
    ensures attempts { IfOk result
        (λ o. o.attempts.items ≡ map (E.attempted end.now) (numbers_of (E.planned end.now))) }
    ensures records { IfOk result
        (λ o. AreRecordsAt (named_keys (E.planned end.now) (E.entered end.now))
        (E.left end.now) o.records) }
{
    let records = match end.records() {
        Some(records) => LastRecords {
            held: RecordsFrom::Lent(records),
        },
        None => LastRecords {
            held: RecordsFrom::Collected(collect_records(alloc, end)?),
        },
    };
    let first = end.plan().first();
    let count = end.plan().readings().len();
    let mut answers = Vec::with_capacity(alloc, count)?;
    let mut attempts = Vec::with_capacity(alloc, count)?;
    for i in 0..count {
        answers.push(end.answer(first + i as u64))?;
        attempts.push(end.attempt(first + i as u64))?;
    }
    Ok(Outcome {
        records,
        answers,
        attempts,
    })
}

/// The records at the keys of the plan and of what the lines wrote.
fn collect_records<'e, E: End<'e>>(alloc: Global, end: &E) -> Result<Records, AllocError>
    ensures { IfOk result (AreRecordsAt (named_keys (E.planned end.now) (E.entered end.now))
        (E.left end.now)) }
{
    let first = end.plan().first();
    let count = end.plan().readings().len();
    let mut records = base_records(alloc, end)?;
    for i in 0..count {
        take_entries(alloc, end, first + i as u64, &mut records)?;
    }
    Ok(Records::from_map(alloc, records)?)
}

/// The records at the keys of the plan. These rise, so each goes after the others. There is
/// capacity for as many new ones: a list that grows is copied.
fn base_records<'e, E: End<'e>>(alloc: Global, end: &E) -> Result<RecordMap, AllocError>
    ensures { IfOk result (HasAt (map (λ e. e.0) (E.planned end.now).base) (E.left end.now)) }
{
    let keys = end.plan().keys();
    let mut records = RecordMap::with_capacity(alloc, keys.len().saturating_mul(2))?;
    for entry in keys {
        if let Some(found) = end.final_of(&entry.0) {
            records.put(alloc, entry.0.clone()?, found.copy()?)?;
        }
    }
    Ok(records)
}

/// Takes the records at the keys of what one line wrote, where those at the keys of the plan are
/// taken. Each is copied once, however often its key is named. If memory runs out `collect`
/// drops them all.
fn take_entries<'e, E: End<'e>>(
    alloc: Global,
    end: &E,
    line: u64,
    records: &mut RecordMap,
) -> Result<(), AllocError>
    ensures { OnOk result ((more : List Key) → HasAt (map (λ e. e.0) (E.planned end.now).base ++ more) (E.left end.now) records.old
        → HasAt ((map (λ e. e.0) (E.planned end.now).base ++ more) ++ keys_named (E.entered end.now line)) (E.left end.now) records.new) }
{
    let mut i = 0;
    while let Some(entry) = end.keys_of(line, i) {
        if !is_taken(end, records, entry.0) {
            if let Some(found) = end.final_of(entry.0) {
                records.put(alloc, entry.0.clone()?, found.copy()?)?;
            }
        }
        i += 1;
    }
    Ok(())
}

/// Whether the record at a key is taken, where those at the keys of the plan are.
fn is_taken<'e, E: End<'e>>(end: &E, records: &RecordMap, key: &Key) -> bool
    ensures { IsTrue result ↔ (IsSome (record_at (E.planned end.now).base key.now)
        ⊎ IsSome (record_at records.now key.now)) }
{
    end.plan().base(key).is_some() || records.get(key.as_ref()).is_some()
}
