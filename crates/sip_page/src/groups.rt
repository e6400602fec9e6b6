//! Wrong responses of one cause: of the same words, message, connection and reason.

use crate::reading::LineRows;
use std::alloc::{AllocError, Global};
use std::collections::BTreeMap;

/// Wrong responses of one cause.
pub struct Group {
    /// Its number on the page, from 1 in the order of the first lines.
    pub number: u64,
    /// Its class in `WEIGHTS`: `1` is the worst, and `3` the least.
    pub weight: u8,
    /// What all its lines have: the words of the report, the kind of the request, and the connection.
    pub words: Vec<u8>,
    pub kind: Vec<u8>,
    pub connection: Vec<u8>,
    /// Its sentence where it can be the same for all its lines, whether it can, and its sentence else.
    pub same: Vec<u8>,
    pub is_same: bool,
    pub other: Vec<u8>,
    pub count: u64,
    /// The transaction dates of the first line and of the last.
    pub first: Vec<u8>,
    pub last: Vec<u8>,
    /// How many responses to such messages over its connection were right before the first line, and before the last one.
    pub right_at_first: u64,
    pub right_at_last: u64,
    /// The lines that are shown.
    pub shown: Vec<LineRows>,
}

impl Drop for Group {
    fn drop(self) {
        let Group {
            number: _,
            weight: _,
            words: _,
            kind: _,
            connection: _,
            same: _,
            is_same: _,
            other: _,
            count: _,
            first: _,
            last: _,
            right_at_first: _,
            right_at_last: _,
            shown: _,
        } = self;
    }
}

/// The groups in the order in which they are shown.
pub type Groups = BTreeMap<Vec<u8>, Group>;

/// Counts a line in the group that is found by this key, which is a new one where none is like it.
pub fn count_in(
    alloc: Global,
    groups: &mut Groups,
    key: &[u8],
    mut line: Group,
) -> Result<(), AllocError> {
    if let Some(group) = groups.get_mut(key) {
        return group.count_one(&line);
    }
    line.number = (groups.len() as u64).saturating_add(1);
    groups.insert(Vec::from_slice(alloc, key)?, line)?;
    Ok(())
}

/// Shows a line in its group.
pub fn show_in(groups: &mut Groups, key: &[u8], line: &LineRows) -> Result<(), AllocError> {
    match groups.get_mut(key) {
        Some(group) => Ok(group.shown.push(line.copy()?)?),
        None => Ok(()),
    }
}

impl Group {
    /// A line of which nothing else is known; `right` is how many such responses were right before it.
    pub fn none(alloc: Global, right: u64) -> Group {
        Group {
            number: 0,
            weight: b'3',
            words: Vec::new(alloc),
            kind: Vec::new(alloc),
            connection: Vec::new(alloc),
            same: Vec::new(alloc),
            is_same: true,
            other: Vec::new(alloc),
            count: 1,
            first: Vec::new(alloc),
            last: Vec::new(alloc),
            right_at_first: right,
            right_at_last: right,
            shown: Vec::new(alloc),
        }
    }

    /// Whether all its lines are of one day.
    pub fn is_one_day(&self) -> bool {
        self.first.get(..8) == self.last.get(..8)
    }

    /// Counts one more line.
    fn count_one(&mut self, line: &Group) -> Result<(), AllocError> {
        self.is_same = self.is_same && self.same.as_slice() == line.same.as_slice();
        self.count = self.count.saturating_add(1);
        self.right_at_last = line.right_at_last;
        self.last.clear();
        self.last.extend_from_slice(&line.last)
    }
}
