//! The steps of a shared board: each is one hold of its lock, and one call of what the lock guards.

use circ_records::Key;
use read_set::PlanName;
use speculate::Reply;
use std::sync::Wait;
use version_store::Place;
use worker_pool::{Begun, Left, SharedBoard, TRIES_AT_EASE};

pub(crate) fn begin<'t, J: PlanName + 'static, R: Wait>(
    rt: &R,
    shared: &SharedBoard<'_, 't, J>,
    worker: u32,
) -> Result<Begun<'t, J>, Left> {
    shared.hold(rt).begin(worker)
}

/// None where the lock isn't free at one of a few tries.
pub(crate) fn try_begin<'t, J: PlanName + 'static>(
    shared: &SharedBoard<'_, 't, J>,
    worker: u32,
) -> Option<Result<Begun<'t, J>, Left>> {
    let mut held = shared.try_hold(TRIES_AT_EASE)?;
    Some(held.begin(worker))
}

pub(crate) fn look<'t, J: PlanName + 'static, R: Wait>(
    rt: &R,
    shared: &SharedBoard<'_, 't, J>,
    worker: u32,
    key: &Key,
) -> Result<Reply<'t, J>, Left> {
    shared.hold(rt).look(worker, key)
}

pub(crate) fn publish<'t, J: PlanName + 'static, R: Wait>(
    rt: &R,
    shared: &SharedBoard<'_, 't, J>,
    worker: u32,
    place: Place<'t, J>,
) -> Result<Reply<'t, J>, Left> {
    shared.hold(rt).publish(worker, place)
}

pub(crate) fn publish_more<'t, J: PlanName + 'static, R: Wait>(
    rt: &R,
    shared: &SharedBoard<'_, 't, J>,
    worker: u32,
) -> Result<Option<Reply<'t, J>>, Left> {
    shared.hold(rt).publish_more(worker)
}

pub(crate) fn check<'t, J: PlanName + 'static, R: Wait>(
    rt: &R,
    shared: &SharedBoard<'_, 't, J>,
    worker: u32,
    line: u64,
) -> Result<Reply<'t, J>, Left> {
    shared.hold(rt).check(worker, line)
}
