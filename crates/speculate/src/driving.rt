//! Running the lines of a board one after another, in the order of the journal.

ghost use Rattle.std.specs.Prelude.{◌≡◌, ◌+◌, ◌++◌, ◌∷◌, [], None, suc, IfErr, IfOk, OnOk, length, map};
ghost use Rattle.board_steps.specs.Board.{row_at};
ghost use Rattle.board_steps.specs.Steps.Call.{Publish};
ghost use Rattle.read_set.specs.Notes.{noted, IsOnceEach};
ghost use Rattle.speculate.specs.Driving.{IsDriven, IsNew, MayStop, RunsTo};
ghost use Rattle.speculate.specs.Playing.{HasRunning};
ghost use Rattle.board_lines.specs.Notes.{contents_at};
ghost use Rattle.board_lines.specs.Replies.{Answers};
ghost use Rattle.speculate.specs.Devices.Phases.{Appears, Drives, Holds, Proves, Reads, Stands, Waits};

use crate::board::{Board, lines_of};
use crate::playing::{put, settled_if_done};
use crate::steps::BoardFault;
use board_lines::{Reply, copied, record_seen};
use circ_records::Key;
use message_meaning::{need, perform};
use read_set::{
    Name, Need, Note, NotedRecord, Notes, PlanName, RecordReader, RecordingSource, Stop, Version,
};
use std::alloc::{AllocError, Global};
use std::sync::Wait;
use version_store::{Place, VersionTable};

/// Commits all lines of a new board in the order of the journal, each before the next begins. Each
/// line runs once.
pub fn drive_in_order<'t, J: PlanName + 'static, R: Wait>(
    rt: &R,
    alloc: Global,
    table: &'t VersionTable<J>,
    board: &mut Board<'_, 't, J>,
) -> Result<(), BoardFault>
    requires { IsNew J.plan board.old }
    ensures all { OnOk result (IsDriven J.plan board.new) }
    ensures led { RunsTo J.plan board.old board.new }
    ensures stop { IfErr result (MayStop J.plan board.new) }
{
    let plan = board.plan();
    let first = plan.first();
    let lines = lines_of(plan) as u64;
    for position in 0..lines {
        drive_line(rt, alloc, table, board, first + position)?;
    }
    Ok(())
}

/// Runs the next line, and commits it.
fn drive_line<'t, J: PlanName + 'static, R: Wait>(
    rt: &R,
    alloc: Global,
    table: &'t VersionTable<J>,
    board: &mut Board<'_, 't, J>,
    line: u64,
) -> Result<(), BoardFault>
    requires { Waits J.plan board.old line }
    ensures next { OnOk result (Stands J.plan board.new (line + 1)) }
    ensures led { Drives J.plan board.old board.new line }
    ensures fault { IfErr result (MayStop J.plan board.new) }
{
    let attempt = take_line(board, line);
    run_line(rt, alloc, table, board, line, attempt)?;
    commit_line(board, line);
    Ok(())
}

/// Takes the next line, and returns the attempt's number.
fn take_line<J: PlanName>(board: &mut Board<'_, '_, J>, line: u64) -> u32
    requires { Waits J.plan board.old line }
    ensures reads { Reads J.plan board.new line [] }
    ensures attempt { suc result ≡ (row_at board.new line).next }
    ensures led { Drives J.plan board.old board.new line }
{
    let Reply::Taken { attempt } = board.take(0, line) else {
        unreachable!()
    };
    attempt
}

/// Runs a line that was taken in this attempt, and checks it.
fn run_line<'t, J: PlanName + 'static, R: Wait>(
    rt: &R,
    alloc: Global,
    table: &'t VersionTable<J>,
    board: &mut Board<'_, 't, J>,
    line: u64,
    attempt: u32,
) -> Result<(), BoardFault>
    requires reads { Reads J.plan board.old line [] }
    requires attempt { suc attempt ≡ (row_at board.old line).next }
    ensures holds { OnOk result (Holds J.plan board.new line) }
    ensures led { Drives J.plan board.old board.new line }
    ensures fault { IfErr result (MayStop J.plan board.new) }
{
    let version = read_line(alloc, board, line, attempt)?;
    let place = put(rt, table, version)?;
    publish_line(board, line, place)?;
    check_line(board, line);
    Ok(())
}

/// Looks at all that a line needs, and returns its version. What the rule will ask for is
/// predicted: so the rule runs twice, and not from its beginning at each look.
fn read_line<J: PlanName + 'static>(
    alloc: Global,
    board: &mut Board<'_, '_, J>,
    line: u64,
    attempt: u32,
) -> Result<Version<J>, BoardFault>
    requires reads { Reads J.plan board.old line [] }
    requires attempt { suc attempt ≡ (row_at board.old line).next }
    ensures ready { IfOk result (Appears J.plan board.new line) }
    ensures runs { OnOk result (HasRunning board.new 0) }
    ensures led { Drives J.plan board.old board.new line }
    ensures fault { IfErr result (MayStop J.plan board.new) }
{
    let plan = board.plan();
    let asked = foreseen(alloc, board, line)?;
    let mut notes = look_at_each(alloc, board, line, asked.as_slice())?;
    'keys: loop {
        // A usize counts the notes, so this ends.
        let _count = notes.as_slice().len();
        let next = need(alloc, plan, line, attempt, &notes)?;
        settled_if_done(&next);
        match next {
            Need::Done(version) => return Ok(version),
            Need::Key(key) => look_at(board, line, &key, &mut notes)?,
        }
    }
}

/// The records for which the rule of a line asks, in its order, as they are after the last line:
/// those that the line will see, if no later line has entries. Their names aren't known. A wrong
/// prediction costs time, and changes no result.
fn foreseen<J: PlanName + 'static>(
    alloc: Global,
    board: &Board<'_, '_, J>,
    line: u64,
) -> Result<Notes, AllocError> {
    let mut source = RecordingSource {
        notes: Notes::new(alloc),
        reader: PastAll { board },
    };
    match perform(alloc, board.plan(), line, &mut source) {
        Err(Stop::Memory) => Err(AllocError),
        _ => Ok(source.notes),
    }
}

/// The records as they are after the last line.
#[derive(Drop)]
struct PastAll<'b, 'p, 't, J: PlanName> {
    board: &'b Board<'p, 't, J>,
}

impl<J: PlanName> RecordReader for PastAll<'_, '_, '_, J> {
    fn look(&mut self, _alloc: Global, key: &Key) -> Result<Option<Note>, AllocError> {
        let board = self.board;
        let found = copied(board.lines.value_of(key))?;
        // (a rule doesn't ask for the name)
        Ok(Some(Note {
            key: key.clone()?,
            name: Name::Base,
            found: NotedRecord::new(found),
        }))
    }
}

/// Looks at each of these keys, and notes what was seen.
fn look_at_each<J: PlanName>(
    alloc: Global,
    board: &mut Board<'_, '_, J>,
    line: u64,
    asked: &[Note],
) -> Result<Notes, BoardFault>
    requires reads { Reads J.plan board.old line [] }
    requires once { IsOnceEach asked.now }
    ensures reads { IfOk result (λ notes. Reads J.plan board.new line notes) }
    ensures next { OnOk result ((row_at board.new line).next ≡ (row_at board.old line).next) }
    ensures led { Drives J.plan board.old board.new line }
    ensures fault { IfErr result (MayStop J.plan board.new) }
{
    let mut notes = Notes::new(alloc);
    for note in asked {
        look_at(board, line, &note.key, &mut notes)?;
    }
    Ok(notes)
}

/// Looks at a key that isn't noted, and notes what was seen.
fn look_at<J: PlanName>(
    board: &mut Board<'_, '_, J>,
    line: u64,
    key: &Key,
    notes: &mut Notes,
) -> Result<(), BoardFault>
    requires reads { Reads J.plan board.old line notes.old }
    requires fresh { noted notes.old key.now ≡ None }
    ensures reads { OnOk result (Reads J.plan board.new line notes.new) }
    ensures next { OnOk result ((row_at board.new line).next ≡ (row_at board.old line).next) }
    ensures more { OnOk result (length notes.new ≡ suc (length notes.old)) }
    ensures keys { OnOk result
        (map (λ n. n.key) notes.new ≡ map (λ n. n.key) notes.old ++ key.now ∷ []) }
    ensures led { Drives J.plan board.old board.new line }
    ensures fault { IfErr result (MayStop J.plan board.new) }
{
    let plan = board.plan();
    let (name, place) = match board.look(0, key) {
        Reply::Seen { name, place } => (name, place),
        Reply::Memory => return Err(BoardFault::Memory),
        _ => unreachable!(),
    };
    let found = copied(record_seen(plan, key, place))?;
    let found = NotedRecord::new(found);
    notes.add(Note {
        key: key.clone()?,
        name,
        found,
    })?;
    Ok(())
}

/// Publishes the version of a line, act by act.
fn publish_line<'t, J: PlanName>(
    board: &mut Board<'_, 't, J>,
    line: u64,
    place: Place<'t, J>,
) -> Result<(), BoardFault>
    requires { Appears J.plan board.old line (contents_at place) }
    ensures whole { OnOk result (Proves J.plan board.new line) }
    ensures led { Drives J.plan board.old board.new line }
    ensures fault { IfErr result (MayStop J.plan board.new) }
{
    'acts: loop {
        match act(board, line, place) {
            Reply::Placed => {}
            Reply::Lifted => {}
            Reply::Whole => return Ok(()),
            Reply::ClockSpent => return Err(BoardFault::ClockSpent),
            Reply::Memory => return Err(BoardFault::Memory),
            _ => unreachable!(),
        }
    }
}

/// The next act of the publication of a line's version. The notes are compared at the first alone.
fn act<'t, J: PlanName>(
    board: &mut Board<'_, 't, J>,
    line: u64,
    place: Place<'t, J>,
) -> Reply<'t, J>
    requires { Appears J.plan board.old line (contents_at place) }
    ensures { Answers J.plan board.old (Publish 0 (contents_at place.entry)) result board.new }
{
    let _line = line;
    match board.publish_more(0) {
        Some(reply) => reply,
        None => board.publish(0, place),
    }
}

/// Checks a line, name by name. Nothing has changed since it looked.
fn check_line<J: PlanName>(board: &mut Board<'_, '_, J>, line: u64)
    requires { Proves J.plan board.old line }
    ensures whole { Holds J.plan board.new line }
    ensures led { Drives J.plan board.old board.new line }
{
    'names: loop {
        match board.check(0, line) {
            Reply::Same => {}
            Reply::Whole => return,
            _ => unreachable!(),
        }
    }
}

/// Commits a line that is checked.
fn commit_line<J: PlanName>(board: &mut Board<'_, '_, J>, line: u64)
    requires { Holds J.plan board.old line }
    ensures next { Stands J.plan board.new (line + 1) }
    ensures led { Drives J.plan board.old board.new line }
{
    let Reply::Committed = board.commit(line) else {
        unreachable!()
    };
}
