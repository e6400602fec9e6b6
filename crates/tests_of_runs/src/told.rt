//! Replies of the board, and what a line does, as words.

use circ_records::{Hold, Key, Record};
use read_set::{Name, PlanName};
use sip_answer::{Answer, write_answer};
use sip_reader::Id;
use speculate::{BoardFault, Choice, Reply};
use std::alloc::{AllocError, Global};
use std::str::from_utf8;
use version_store::Found;

/// A word and a number after it.
pub(crate) fn tell_number(out: &mut String, word: &str, number: u64) -> Result<(), AllocError> {
    write!(out, "{word}{number}")
}

fn shown(id: &Id) -> &str {
    from_utf8(id.as_bytes()).unwrap_or("?")
}

/// A word and an id after it.
pub(crate) fn tell_id(out: &mut String, word: &str, id: &Id) -> Result<(), AllocError> {
    out.push_str(word)?;
    out.push_str(shown(id))
}

/// A name: `base`, or a line and its attempt.
pub(crate) fn tell_name(out: &mut String, name: Name) -> Result<(), AllocError> {
    match name {
        Name::Base => out.push_str("base"),
        Name::Made { line, attempt } => {
            tell_number(out, "", line)?;
            tell_number(out, ".", u64::from(attempt))
        }
    }
}

/// The name that is found, or the line whose entry is suspect.
pub(crate) fn tell_found(out: &mut String, found: Found) -> Result<(), AllocError> {
    match found {
        Found::Named(name) => tell_name(out, name),
        Found::Suspect { line } => tell_number(out, "suspect ", line),
    }
}

/// The choice of a free worker.
pub(crate) fn tell_choice(out: &mut String, choice: Choice) -> Result<(), AllocError> {
    match choice {
        Choice::Commit(line) => tell_number(out, "commit ", line),
        Choice::Check(line) => tell_number(out, "check ", line),
        Choice::Take(line) => tell_number(out, "take ", line),
        Choice::Nothing => out.push_str("nothing"),
        Choice::End => out.push_str("end"),
    }
}

/// A choice, and the reply to the call that it names.
pub(crate) fn tell_begun<J: PlanName>(
    out: &mut String,
    choice: Choice,
    reply: &Option<Reply<'_, J>>,
) -> Result<(), AllocError> {
    tell_choice(out, choice)?;
    match reply {
        Some(reply) => {
            out.push_str(": ")?;
            tell(out, reply)
        }
        None => Ok(()),
    }
}

/// A reply.
pub(crate) fn tell<J: PlanName>(out: &mut String, reply: &Reply<'_, J>) -> Result<(), AllocError> {
    match reply {
        Reply::Seen { name, .. } => {
            out.push_str("seen ")?;
            tell_name(out, *name)
        }
        Reply::Taken { attempt } => tell_number(out, "taken ", u64::from(*attempt)),
        Reply::Suspect { line } => tell_number(out, "suspect ", *line),
        Reply::Attempts { line } => tell_number(out, "attempts ", *line),
        Reply::Changed { key, noted, found } => tell_change(out, key.id(), *noted, *found),
        _ => out.push_str(word_of(reply)),
    }
}

fn tell_change(out: &mut String, id: &Id, noted: Name, found: Found) -> Result<(), AllocError> {
    tell_id(out, "changed ", id)?;
    out.push_str(" ")?;
    tell_name(out, noted)?;
    out.push_str(" ")?;
    tell_found(out, found)
}

/// The word of a reply that has nothing beside it.
fn word_of<J: PlanName>(reply: &Reply<'_, J>) -> &'static str {
    match reply {
        Reply::Idle => "idle",
        Reply::Stranger => "stranger",
        Reply::Placed => "placed",
        Reply::Lifted => "lifted",
        Reply::Whole => "whole",
        Reply::Same => "same",
        Reply::Committed => "committed",
        Reply::Later => "later",
        Reply::ClockSpent => "clock spent",
        _ => "memory",
    }
}

/// A fault of the board.
pub(crate) fn tell_fault(out: &mut String, fault: BoardFault) -> Result<(), AllocError> {
    match fault {
        BoardFault::Attempts { line } => tell_number(out, "attempts ", line),
        BoardFault::ClockSpent => out.push_str("clock spent"),
        BoardFault::Memory => out.push_str("memory"),
    }
}

/// What a line does: its answer, then each record that it writes.
pub(crate) fn tell_effect(
    alloc: Global,
    out: &mut String,
    answer: Option<&Answer>,
    writes: &[(Key, Record)],
) -> Result<(), AllocError> {
    if let Some(answer) = answer {
        let text = write_answer(alloc, answer, None)?;
        out.push_str(from_utf8(text.as_slice()).unwrap_or("?"))?;
    }
    for (key, record) in writes {
        tell_id(out, "; ", key.id())?;
        tell_record(out, record)?;
    }
    Ok(())
}

/// A patron's loans and fees, an item's borrower and who waits for it, what is paid of a fee.
fn tell_record(out: &mut String, record: &Record) -> Result<(), AllocError> {
    match record {
        Record::Patron(patron) => {
            out.push_str(" loans")?;
            tell_ids(out, patron.get().loans.as_slice())?;
            out.push_str(" fees")?;
            tell_ids(out, patron.get().fees.as_slice())
        }
        Record::Item(item) => {
            match &item.get().loan {
                Some(loan) => tell_id(out, " ", &loan.patron)?,
                None => out.push_str(" -")?,
            }
            tell_queue(out, item.get().holds.as_slice())
        }
        Record::Fee(fee) => tell_number(out, " ", fee.get().paid.hundredths()),
    }
}

/// Who waits, each with the place that was named.
fn tell_queue(out: &mut String, queue: &[Hold]) -> Result<(), AllocError> {
    out.push_str(" holds")?;
    for hold in queue {
        tell_id(out, "+", &hold.patron)?;
        out.push_str(":")?;
        out.push_str(from_utf8(hold.pickup.as_bytes()).unwrap_or("?"))?;
    }
    Ok(())
}

fn tell_ids(out: &mut String, ids: &[Id]) -> Result<(), AllocError> {
    for id in ids {
        tell_id(out, "+", id)?;
    }
    Ok(())
}
