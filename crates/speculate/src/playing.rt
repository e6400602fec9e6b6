//! A list of steps of workers, played one after another.

ghost use Rattle.std.specs.Prelude.{◌≡◌, IfOk, IfErr, None, OnErr, OnOk, option_map};
ghost use Rattle.board_lines.specs.Acts.{IsPlacing};
ghost use Rattle.speculate.specs.Needed.{IsNext, IsRunning, IsToPublish, SettlesIfDone, needed_key, needed_version};
ghost use Rattle.board_lines.specs.Notes.{contents_at};
ghost use Rattle.speculate.specs.Playing.{Goes, Halts, HasRunning, IsRefused, Plays};
ghost use Rattle.speculate.specs.declared.steps.Step.TheVariants as steps;

use crate::board::Board;
use crate::ending::ended;
use crate::steps::{BoardFault, Halt, Step};
use board_lines::{Hand, read_notes};
use circ_records::Key;
use message_meaning::need;
use read_set::{Need, PlanName, Version};
use std::alloc::{AllocError, Global};
use std::sync::Wait;
use version_store::{Place, VersionTable};

/// Plays steps of workers in their order, all of them or up to the first that is refused. The rest
/// of such a list can be played later from there.
pub fn play<'t, J: PlanName, R: Wait>(
    rt: &R,
    alloc: Global,
    table: &'t VersionTable<J>,
    board: &mut Board<'_, 't, J>,
    steps: &[Step],
) -> Result<(), Halt>
    ensures all { OnOk result (Plays J.plan board.old steps.now board.new) }
    ensures halt { IfErr result (λ halt. Halts J.plan board.old steps.now halt board.new) }
{
    for done in 0..steps.len() {
        if let Err(fault) = act(rt, alloc, table, board, steps[done]) {
            return Err(Halt { done, fault });
        }
    }
    Ok(())
}

/// Makes one step.
fn act<'t, J: PlanName, R: Wait>(
    rt: &R,
    alloc: Global,
    table: &'t VersionTable<J>,
    board: &mut Board<'_, 't, J>,
    step: Step,
) -> Result<(), BoardFault>
    ensures goes { OnOk result (Goes J.plan board.old step board.new) }
    ensures refused { IfErr result (λ fault. IsRefused J.plan board.old step fault board.new) }
{
    match step {
        Step::Take { worker, line } => ended(board.take(worker, line)),
        Step::Look { worker } => look(alloc, board, worker),
        Step::Publish { worker } => publish(rt, alloc, table, board, worker),
        Step::Check { worker, line } => ended(board.check(worker, line)),
        Step::Commit { line } => ended(board.commit(line)),
    }
}

/// Looks at the key that the worker's line in hand needs, if it needs one.
fn look<'t, J: PlanName>(
    alloc: Global,
    board: &mut Board<'_, 't, J>,
    worker: u32,
) -> Result<(), BoardFault>
    ensures goes { OnOk result (Goes J.plan board.old (steps.Look worker) board.new) }
    ensures refused { IfErr result
        (λ fault. IsRefused J.plan board.old (steps.Look worker) fault board.new) }
{
    let next = next_need(alloc, board, worker)?;
    let Some(key) = key_in(next) else {
        return Ok(());
    };
    ended(board.look(worker, &key))
}

/// One act of publication of the version of the worker's line in hand, if it has one.
fn publish<'t, J: PlanName, R: Wait>(
    rt: &R,
    alloc: Global,
    table: &'t VersionTable<J>,
    board: &mut Board<'_, 't, J>,
    worker: u32,
) -> Result<(), BoardFault>
    ensures goes { OnOk result (Goes J.plan board.old (steps.Publish worker) board.new) }
    ensures refused { IfErr result
        (λ fault. IsRefused J.plan board.old (steps.Publish worker) fault board.new) }
{
    if let Some(reply) = board.publish_more(worker) {
        return ended(reply);
    }
    let place = place_of(rt, alloc, table, board, worker)?;
    publish_at(board, worker, place)
}

/// One act of publication of the version at a place, if there is one.
fn publish_at<'t, J: PlanName>(
    board: &mut Board<'_, 't, J>,
    worker: u32,
    place: Option<Place<'t, J>>,
) -> Result<(), BoardFault>
    requires { IsToPublish J.plan board.old worker (option_map contents_at place) }
    ensures goes { OnOk result (Goes J.plan board.old (steps.Publish worker) board.new) }
    ensures refused { IfErr result
        (λ fault. IsRefused J.plan board.old (steps.Publish worker) fault board.new) }
{
    match place {
        Some(place) => ended(board.publish(worker, place)),
        None => Ok(()),
    }
}

/// The place of the version to be published, a new one; None if there is no version.
fn place_of<'t, J: PlanName, R: Wait>(
    rt: &R,
    alloc: Global,
    table: &'t VersionTable<J>,
    board: &Board<'_, 't, J>,
    worker: u32,
) -> Result<Option<Place<'t, J>>, AllocError>
    requires { IsPlacing board.now worker None }
    ensures place { IfOk result
        (λ place. IsToPublish J.plan board.now worker (option_map contents_at place)) }
    ensures runs { OnErr result (HasRunning board.now worker) }
{
    let next = next_need(alloc, board, worker)?;
    let Some(version) = version_in(next) else {
        return Ok(None);
    };
    let place = put(rt, table, version)?;
    Ok(Some(place))
}

/// The key that the line needs, if it needs one.
fn key_in<J: PlanName>(next: Option<Need<J>>) -> Option<Key>
    ensures { result ≡ needed_key next }
{
    match next {
        Some(Need::Key(key)) => Some(key),
        _ => None,
    }
}

/// The version of the line, if it needs no more keys.
fn version_in<J: PlanName>(next: Option<Need<J>>) -> Option<Version<J>>
    ensures { result ≡ needed_version next }
{
    match next {
        Some(Need::Done(version)) => Some(version),
        _ => None,
    }
}

/// What the worker's line in hand needs next, where that line runs; else None, and no memory is
/// allocated.
fn next_need<J: PlanName>(
    alloc: Global,
    board: &Board<'_, '_, J>,
    worker: u32,
) -> Result<Option<Need<J>>, AllocError>
    ensures next { IfOk result (IsNext J.plan board.now worker) }
    ensures runs { OnErr result (HasRunning board.now worker) }
{
    let Some(hand) = running(board, worker) else {
        return Ok(None);
    };
    let Some(noted) = board.notes(worker) else {
        return Ok(None);
    };
    let plan = board.plan();
    let notes = read_notes(alloc, plan, noted)?;
    let next = need(alloc, plan, hand.line, hand.attempt, &notes)?;
    settled_if_done(&next);
    Ok(Some(next))
}

/// The worker's line in hand with its attempt, where it runs: nothing is published, and it isn't
/// being checked.
fn running<J: PlanName>(board: &Board<'_, '_, J>, worker: u32) -> Option<Hand>
    ensures { IsRunning board.now worker result }
{
    let _plan = board.plan();
    let Some(hand) = board.hand(worker) else {
        return None;
    };
    let None = board.placing(worker) else {
        return None;
    };
    let Some(_) = board.lines.to_publish(worker) else {
        return None;
    };
    Some(hand)
}

/// A lemma: does nothing at run time; gives callers `IsVersion` of a version that `need` returned.
pub fn settled_if_done<J: PlanName>(next: &Need<J>)
    ensures { SettlesIfDone J.plan next.now }
{
    if let Need::Done(version) = next {
        let _reads = version.reads();
    }
}

/// Puts exactly this version into the table, and gives its place.
pub fn put<'t, J: PlanName, R: Wait>(
    rt: &R,
    table: &'t VersionTable<J>,
    version: Version<J>,
) -> Result<Place<'t, J>, AllocError>
    ensures { IfOk result (λ place. contents_at place ≡ version) }
{
    match table.put(rt, version) {
        Ok(place) => Ok(place),
        Err(_refused) => Err(AllocError),
    }
}
