//! The calls of a script, and what the board replies.

use crate::odd::key_of;
use crate::told::{tell, tell_begun, tell_choice, tell_effect, tell_id, tell_number};
use message_meaning::need;
use read_set::{Need, PlanName};
use speculate::{Board, read_notes};
use std::alloc::{AllocError, AllocGlobal, Global};
use std::sync::Wait;
use version_store::{Place, VersionTable};

/// The number that a word is; else the greatest.
pub(crate) fn number(word: &str) -> u64 {
    word.parse::<u64>().unwrap_or(u64::MAX)
}

/// The same of a worker or an attempt.
pub(crate) fn small(word: &str) -> u32 {
    word.parse::<u32>().unwrap_or(u32::MAX)
}

/// A call, as its word and its two arguments, which may be missing.
pub(crate) fn parts_of(call: &str) -> (&str, &str, &str) {
    let (word, rest) = call.split_once(' ').unwrap_or((call, ""));
    let (first, second) = rest.split_once(' ').unwrap_or((rest, ""));
    (word, first, second)
}

/// Makes a call, and says what the board replies.
pub(crate) fn reply_to<'t, J: PlanName, R: Wait + AllocGlobal>(
    rt: &R,
    table: &'t VersionTable<J>,
    board: &mut Board<'_, 't, J>,
    call: &str,
    out: &mut String,
) -> Result<(), AllocError> {
    let (word, first, second) = parts_of(call);
    let worker = small(first);
    match word {
        "take" => tell(out, &board.take(worker, number(second))),
        "look" => look(rt.alloc(), board, worker, second, out),
        "publish" => {
            let place = place_of(rt, table, board, worker, second)?;
            publish(board, worker, place, out)
        }
        "check" => tell(out, &board.check(worker, number(second))),
        "commit" => tell(out, &board.commit(number(first))),
        "begin" => {
            let (choice, reply) = board.begin(worker);
            tell_begun(out, choice, &reply)
        }
        _ => tell_of(rt.alloc(), board, word, worker, out),
    }
}

/// What a board says about itself, and what the version of a worker's line does.
fn tell_of<J: PlanName>(
    alloc: Global,
    board: &Board<'_, '_, J>,
    word: &str,
    worker: u32,
    out: &mut String,
) -> Result<(), AllocError> {
    match word {
        "choose" => tell_choice(out, board.choose()),
        "clock" => tell_number(out, "", board.clock()),
        "committed" => tell_number(out, "", board.committed()),
        "counts" => tell_counts(out, board),
        _ => match need_of(alloc, board, worker) {
            Ok(Some(Need::Done(version))) => {
                tell_effect(alloc, out, version.answer(), version.writes())
            }
            Ok(Some(Need::Key(key))) => tell_id(out, "needs ", key.id()),
            Ok(None) => out.push_str("nothing"),
            Err(refused) => Err(refused),
        },
    }
}

/// Takes, failed checks, stops, commits and live lines.
pub(crate) fn tell_counts<J: PlanName>(
    out: &mut String,
    board: &Board<'_, '_, J>,
) -> Result<(), AllocError> {
    let counts = board.counts();
    tell_number(out, "", counts.takes)?;
    tell_number(out, " ", counts.failed)?;
    tell_number(out, " ", counts.stops)?;
    tell_number(out, " ", counts.commits)?;
    tell_number(out, " ", counts.live)
}

/// What the worker's line in hand needs.
fn need_of<J: PlanName>(
    alloc: Global,
    board: &Board<'_, '_, J>,
    worker: u32,
) -> Result<Option<Need<J>>, AllocError> {
    let Some(hand) = board.hand(worker) else {
        return Ok(None);
    };
    let Some(noted) = board.notes(worker) else {
        return Ok(None);
    };
    let plan = board.plan();
    let notes = read_notes(alloc, plan, noted)?;
    Ok(Some(need(alloc, plan, hand.line, hand.attempt, &notes)?))
}

/// A look at the key of an id.
fn look<J: PlanName>(
    alloc: Global,
    board: &mut Board<'_, '_, J>,
    worker: u32,
    id: &str,
    out: &mut String,
) -> Result<(), AllocError> {
    match key_of(alloc, id)? {
        Some(key) => tell(out, &board.look(worker, &key)),
        None => out.push_str("no key"),
    }
}

/// The place of the version to be published: that of the last act; else that of the version which
/// the worker's line needs, or the line of the worker that is named.
fn place_of<'t, J: PlanName, R: Wait + AllocGlobal>(
    rt: &R,
    table: &'t VersionTable<J>,
    board: &Board<'_, 't, J>,
    worker: u32,
    other: &str,
) -> Result<Option<Place<'t, J>>, AllocError> {
    let placing = board.placing(worker);
    if placing.is_some() && other.is_empty() {
        return Ok(placing);
    }
    let of = if other.is_empty() {
        worker
    } else {
        small(other)
    };
    Ok(put(rt, table, need_of(rt.alloc(), board, of)?))
}

/// Puts the version into the table that is needed, if one is.
pub(crate) fn put<'t, J: PlanName, R: Wait>(
    rt: &R,
    table: &'t VersionTable<J>,
    needed: Option<Need<J>>,
) -> Option<Place<'t, J>> {
    match needed {
        Some(Need::Done(version)) => table.put(rt, version).ok(),
        _ => None,
    }
}

/// An act of publication of the version at a place, if there is one.
fn publish<'t, J: PlanName>(
    board: &mut Board<'_, 't, J>,
    worker: u32,
    place: Option<Place<'t, J>>,
    out: &mut String,
) -> Result<(), AllocError> {
    match place {
        Some(place) => tell(out, &board.publish(worker, place)),
        None => out.push_str("no version"),
    }
}
