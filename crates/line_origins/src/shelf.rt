//! The records after some of the lines, and which line wrote each last.

ghost use Rattle.std.specs.Prelude.{◌≡◌, ◌≤◌, ◌-◌, ◌+◌, IfOk};
ghost use Rattle.std.specs.BTreeMap.{is_at};
ghost use Rattle.std.specs.Map.{lookup};
ghost use Rattle.circ_records.specs.Keys.{key_cmp};
ghost use Rattle.circ_records.specs.Records.{record_at};
ghost use Rattle.circ_records.specs.declared.key.Key.{Key};
ghost use Rattle.line_origins.specs.Origins.{IsShelf, line_of, written_by};

use circ_records::{Key, Record};
use message_meaning::{Live, perform};
use read_set::{Effect, Name, Plan, Stop};
use std::alloc::{AllocError, Global};
use std::collections::BTreeMap;

/// The records after the lines so far, and of each key that these wrote the number of the line that wrote it last.
#[derive(Drop)]
pub struct TracedRecords {
    pub(crate) live: Live,
    pub(crate) writers: BTreeMap<Key, u64>,
}

impl TracedRecords {
    /// The records before the first line, copied.
    pub fn over(alloc: Global, plan: &Plan) -> Result<TracedRecords, AllocError>
        ensures { IfOk result (IsShelf plan.now 0) }
    {
        Ok(TracedRecords {
            live: Live::over(alloc, plan)?,
            writers: BTreeMap::new(alloc),
        })
    }

    /// The record at a key, copied.
    pub fn record(&self, key: &Key) -> Result<Option<Record>, AllocError>
        ensures { IfOk result (λ r. r ≡ record_at self.now.live key.now) }
    {
        match self.live.get(key) {
            Some(found) => Ok(Some(found.copy()?)),
            None => Ok(None),
        }
    }

    /// The line that wrote the record at a key last, or the base.
    pub fn name(&self, key: &Key) -> Name
        ensures { line_of result ≡ lookup (is_at (key_cmp key.now)) self.now.writers.entries }
    {
        match self.writers.get(key) {
            Some(line) => Name::Made {
                attempt: 0,
                line: *line,
            },
            None => Name::Base,
        }
    }

    /// Replays the line of this number, which is the next one. Out of memory, the records are lost.
    pub fn pass(self, alloc: Global, plan: &Plan, line: u64) -> Result<TracedRecords, AllocError>
        requires line { plan.now.first ≤ line }
        requires shelf { IsShelf plan.now (line - plan.now.first) self }
        ensures { IfOk result (IsShelf plan.now (line + 1 - plan.now.first)) }
    {
        let TracedRecords { mut live, writers } = self;
        match perform(alloc, plan, line, &mut live) {
            Ok(Effect { writes, answer: _ }) => {
                let writers = mark(writers, writes.as_slice(), line)?;
                live.put(writes)?;
                Ok(TracedRecords { live, writers })
            }
            Err(Stop::Unnoted(_)) => unreachable!(),
            Err(Stop::Memory) => Err(AllocError),
        }
    }
}

/// Marks each key that a line writes as written by it.
fn mark(
    writers: BTreeMap<Key, u64>,
    writes: &[(Key, Record)],
    line: u64,
) -> Result<BTreeMap<Key, u64>, AllocError>
    ensures { IfOk result (λ m. (k : Key) → lookup (is_at (key_cmp k)) m.entries ≡ written_by writes.now line (lookup (is_at (key_cmp k)) writers.entries) k) }
{
    let mut writers = writers;
    for entry in writes {
        writers.insert(entry.0.clone()?, line)?;
    }
    Ok(writers)
}
