//! The replay by one thread: the lines in the order of the journal, each on the records that the
//! lines before it left.

ghost use Rattle.std.specs.Prelude.{◌≡◌, IfOk, OnOk};
ghost use Rattle.circ_records.specs.Records.{record_at};
ghost use Rattle.circ_records.specs.declared.key.Key.{Key};
ghost use Rattle.read_set.specs.Maps.{Map};
ghost use Rattle.read_set.specs.Replay.{GivesAt};
ghost use Rattle.replay_run.specs.ReplayEnd.{IsReplay};

use crate::written::WrittenKeys;
use circ_records::Records;
use message_meaning::{Live, perform};
use read_set::{Effect, Plan, Stop};
use sip_answer::Answer;
use std::alloc::{AllocError, Global};

/// The outcome of a replay: the records after the last line, and of each line its answer, where it
/// has one, and the keys of the records that it wrote.
#[derive(Drop)]
pub struct Replayed {
    pub records: Records,
    pub answers: Vec<Option<Answer>>,
    pub written: WrittenKeys,
}

/// Gives the answer of each line of a plan and the records after the last, as one thread gets them
/// that takes the lines in order.
pub fn replay(alloc: Global, plan: &Plan) -> Result<Replayed, AllocError>
    ensures { IfOk result (IsReplay plan.now) }
{
    let count = plan.readings().len();
    let first = plan.first();
    let mut live = Live::over(alloc, plan)?;
    let mut answers = Vec::with_capacity(alloc, count)?;
    let mut written = WrittenKeys::with_room(alloc, count)?;
    for i in 0..count {
        let Effect { writes, answer } = effect_of(alloc, plan, first + i as u64, &mut live)?;
        answers.push(answer)?;
        written.add(writes.as_slice())?;
        live.put(writes)?;
    }
    Ok(Replayed {
        records: live.into_records(alloc)?,
        answers,
        written,
    })
}

/// What the line of a number does to the records as they are.
pub(crate) fn effect_of(
    alloc: Global,
    plan: &Plan,
    line: u64,
    live: &mut Live,
) -> Result<Effect, AllocError>
    ensures same { OnOk result ((k : Key) → record_at live.new k ≡ record_at live.old k) }
    ensures gives { IfOk result
        (λ e. (M : Map) → ((k : Key) → record_at live.old k ≡ M k) → GivesAt plan.now line M e) }
{
    match perform(alloc, plan, line, live) {
        Ok(effect) => Ok(effect),
        Err(Stop::Unnoted(_)) => unreachable!(),
        Err(Stop::Memory) => Err(AllocError),
    }
}
