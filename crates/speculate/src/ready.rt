//! Which lines wait, which need a check, and which have a valid stamp.

ghost use Rattle.std.specs.Prelude.{◌≡◌, ◌+◌, ◌<◌, ◌≤◌, ◌||◌, IfOk, length};
ghost use Rattle.journal_table.specs.declared.TheConstants.{LINE_LIMIT};
ghost use Rattle.speculate.specs.Marks.{Follows, GoesOver, IsPosition, Loses, Puts, SendsBack, all_waiting, ended, has_position};

use crate::line_set::LineSet;
use board_lines::Reply;
use read_set::PlanName;
use std::alloc::{AllocError, Global};

/// In which of the sets a line is.
#[derive(Clone, Copy, PartialEq, Eq)]
pub enum Mark {
    /// A worker has it in hand, or it is committed.
    Nowhere,
    Waiting,
    /// It is done, and was not checked yet, or its last check is no longer valid.
    Unchecked,
    /// It is done, and the stamp of its last check is valid: no line below has changed since.
    Checked,
    /// It is being checked, and the stamp of that check is valid so far.
    Checking,
}

/// The lines by their marks, as sets of positions from 0 on. Only `new` allocates memory.
pub struct Ready {
    pub waiting: LineSet,
    pub unchecked: LineSet,
    pub checked: LineSet,
    pub checking: LineSet,
}

impl Drop for Ready {
    fn drop(self) {
        let Ready {
            waiting: _,
            unchecked: _,
            checked: _,
            checking: _,
        } = self;
    }
}

impl Ready {
    /// Begins with this number of lines, at most as many as a journal may have, all of which wait.
    pub fn new(alloc: Global, len: usize) -> Result<Ready, AllocError>
        requires { len ≤ LINE_LIMIT }
        ensures { IfOk result (λ r. r ≡ all_waiting len) }
    {
        Ok(Ready {
            waiting: LineSet::new(alloc, len, true)?,
            unchecked: LineSet::new(alloc, len, false)?,
            checked: LineSet::new(alloc, len, false)?,
            checking: LineSet::new(alloc, len, false)?,
        })
    }

    /// Gives a line this mark, and no other line another.
    pub fn put(&mut self, position: usize, mark: Mark)
        requires { IsPosition self.old position }
        ensures { Puts self.old self.new position mark }
    {
        self.waiting.remove(position);
        self.unchecked.remove(position);
        self.checked.remove(position);
        self.checking.remove(position);
        match mark {
            Mark::Nowhere => {}
            Mark::Waiting => self.waiting.insert(position),
            Mark::Unchecked => self.unchecked.insert(position),
            Mark::Checked => self.checked.insert(position),
            Mark::Checking => self.checking.insert(position),
        }
    }

    /// Marks what has changed by an act of the publication of the line at a position, which had
    /// this reply: the line's entries have changed, or all is published.
    pub fn follow<J: PlanName>(&mut self, position: usize, reply: &Reply<'_, J>)
        requires { IsPosition self.old position }
        ensures { Follows reply.now self.old self.new position }
    {
        match reply {
            Reply::Placed | Reply::Lifted => self.lose_above(position),
            Reply::Whole => self.put(position, Mark::Unchecked),
            _ => {}
        }
    }

    /// Takes from later lines the stamps that are no longer valid since the line at a position has
    /// changed. Each of these stamps comes from a check, so the number of checks bounds the work of
    /// all these calls.
    pub fn lose_above(&mut self, position: usize)
        requires { IsPosition self.old position }
        ensures { Loses self.old self.new position }
    {
        lose_checked(&mut self.checked, &mut self.unchecked, position + 1);
        while let Some(later) = self.checking.least_from(position + 1) {
            self.checking.remove(later);
        }
    }

    /// Marks a line as done with a stamp: all its notes were compared, in a check that begins with
    /// this call or began earlier.
    pub fn end_check(&mut self, position: usize, begins: bool)
        requires { IsPosition self.old position }
        ensures { Puts self.old self.new position
            (ended (begins || has_position self.old.checking position)) }
    {
        if begins || self.checking.has(position) {
            self.put(position, Mark::Checked);
        } else {
            // an earlier line has changed during the check
            self.put(position, Mark::Unchecked);
        }
    }

    /// Marks a line as waiting, since its check failed; if it has entries (`changes`), these have
    /// changed, and later stamps are no longer valid.
    pub fn send_back(&mut self, position: usize, changes: bool)
        requires { IsPosition self.old position }
        ensures { SendsBack self.old self.new position changes }
    {
        self.put(position, Mark::Waiting);
        if changes {
            self.lose_above(position);
        }
    }
}

/// The checked lines from a position on need a check again.
fn lose_checked(checked: &mut LineSet, unchecked: &mut LineSet, from: usize)
    requires { length checked.old ≡ length unchecked.old }
    ensures { GoesOver checked.old unchecked.old checked.new unchecked.new from }
{
    while let Some(position) = checked.least_from(from) {
        checked.remove(position);
        unchecked.insert(position);
    }
}
