//! The lines that have an entry at one key.

ghost use Rattle.std.specs.Prelude.{◌≡◌, ℕ, OnOk, OnErr, [], ◌∷◌, cond, true, false};
ghost use Rattle.std.specs.Ordering.{eq_by_cmp, nat_cmp};
ghost use Rattle.version_store.specs.Index.{IsLatest, has};

use std::alloc::{AllocError, Global};
use std::cmp::Ordering;
use std::marker::Model;

/// The first allocation has capacity for this many older lines: many keys have no more, and no
/// block of memory is smaller.
const FIRST_ROOM: usize = 3;

/// The lines that have an entry at one key. The newest, the greatest of them, is inline, since
/// mostly that one is asked for. The older ones are a vector that rises: lines are mostly added in
/// rising order, and mostly a late one is removed, so few others are moved.
pub struct Column {
    newest: Option<u64>,
    older: Vec<u64>,
}

impl Drop for Column {
    fn drop(self) {
        let Column {
            newest: _,
            older: _,
        } = self;
    }
}

impl Model for Column {
    ghost use Rattle.std.specs.Prelude.{List, ℕ};
    ghost use Rattle.version_store.specs.Devices.Columns.{IsColumn, lines_of};

    ghost Value = { List ℕ };

    ghost view = { λ c. lines_of c.newest c.older.items };

    ghost invariant = { λ c. IsColumn c.newest c.older.items };
}

impl Column {
    /// Makes the column of this one line.
    pub fn of(alloc: Global, line: u64) -> Column
        ensures { result ≡ line ∷ [] }
    {
        Column {
            newest: Some(line),
            older: Vec::new(alloc),
        }
    }

    /// Adds a line, and loses no other.
    pub fn insert(&mut self, line: u64) -> Result<(), AllocError>
        ensures put { OnOk result
            ((m : ℕ) → has self.new m ≡ cond (eq_by_cmp nat_cmp line m) true (has self.old m)) }
        ensures same { OnErr result (self.new ≡ self.old) }
    {
        let Some(newest) = self.newest else {
            self.newest = Some(line);
            return Ok(());
        };
        match newest.cmp(&line) {
            Ordering::Less => {
                make_first_room(&mut self.older)?;
                self.older.push(newest)?;
                self.newest = Some(line);
            }
            Ordering::Equal => {}
            Ordering::Greater => {
                if let Err(position) = self.older.binary_search(&line) {
                    self.older.insert(position, line)?;
                }
            }
        }
        Ok(())
    }

    /// Removes a line, if it is there, and no other.
    pub fn remove(&mut self, line: u64)
        ensures { (m : ℕ) → has self.new m ≡ cond (eq_by_cmp nat_cmp line m) false
            (has self.old m) }
    {
        let Some(newest) = self.newest else {
            return;
        };
        if newest == line {
            self.newest = self.older.pop();
        } else if let Ok(position) = self.older.binary_search(&line) {
            let _ = self.older.remove(position);
        }
    }

    /// Gives the greatest line of the column below this one; None if there is none.
    pub fn latest_below(&self, below: u64) -> Option<u64>
        ensures { IsLatest (has self.now) below result }
    {
        let newest = self.newest?;
        if newest < below {
            return Some(newest);
        }
        let count = self.older.partition_point(|line| *line < below);
        if count == 0 {
            return None;
        }
        Some(self.older[count - 1])
    }
}

/// Allocates memory for the first older lines. Out of memory, nothing changes.
fn make_first_room(older: &mut Vec<u64>) -> Result<(), AllocError>
    ensures { older.new.items ≡ older.old.items }
{
    if older.is_empty() {
        older.reserve_exact(FIRST_ROOM)?;
    }
    Ok(())
}
