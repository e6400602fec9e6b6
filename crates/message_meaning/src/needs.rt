ghost use Rattle.std.specs.Prelude.{◌≡◌, IfOk};
ghost use Rattle.message_meaning.specs.Needs.{IsNeed};
ghost use Rattle.message_meaning.specs.Rules.{rule_at};
ghost use Rattle.read_set.specs.Asks.{follow, Done};
ghost use Rattle.read_set.specs.Notes.{noted};
ghost use Rattle.read_set.specs.Settling.{Settles};

use crate::lines::perform;
use read_set::{Effect, Need, Notes, NotesName, NotesSource, Plan, PlanName, Stop, Version};
use std::alloc::{AllocError, Global};
use std::marker::Brand;

/// What a line needs after what it has read: the record for which its rule asks next, or nothing more, and then the
/// version that its rule results in. The rule is followed from its beginning: to see all that a line needs, run
/// `perform` once over a source that notes what it sees.
pub fn need<J: PlanName>(
    alloc: Global,
    plan: &Plan,
    line: u64,
    attempt: u32,
    notes: &Notes,
) -> Result<Need<J>, AllocError>
    requires { plan.now ≡ J.plan }
    ensures { IfOk result (IsNeed J.plan line attempt notes.now) }
{
    need_on::<J, Brand>(alloc, plan, line, attempt, notes)
}

/// The same; the type `N` names the notes.
fn need_on<J: PlanName, N: NotesName>(
    alloc: Global,
    plan: &Plan,
    line: u64,
    attempt: u32,
    notes: &Notes,
) -> Result<Need<J>, AllocError>
    requires plan { plan.now ≡ J.plan }
    requires notes { notes.now ≡ N.notes }
    ensures { IfOk result (IsNeed J.plan line attempt N.notes) }
{
    let mut source: NotesSource<N> = NotesSource::new(notes);
    match perform(alloc, plan, line, &mut source) {
        Ok(effect) => end(alloc, line, attempt, notes, effect),
        Err(Stop::Unnoted(key)) => Ok(Need::Key(key)),
        Err(Stop::Memory) => Err(AllocError),
    }
}

/// The version that the rule resulted in.
fn end<J: PlanName>(
    alloc: Global,
    line: u64,
    attempt: u32,
    notes: &Notes,
    effect: Effect,
) -> Result<Need<J>, AllocError>
    requires order { follow (noted notes.now) (rule_at J.plan line) ≡ Done effect }
    requires settles { Settles J.plan line notes.now effect.writes effect.answer }
    ensures { IfOk result (IsNeed J.plan line attempt notes.now) }
{
    let Effect { writes, answer } = effect;
    let reads = notes.copy(alloc)?;
    Ok(Need::Done(Version::new(line, attempt, reads, writes, answer)))
}
