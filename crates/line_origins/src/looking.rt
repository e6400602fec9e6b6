//! A source that reads the records of a `TracedRecords`, and notes what it read and which line wrote it.

ghost use Rattle.std.specs.Prelude.{◌≡◌, [], None, ⊤};
ghost use Rattle.read_set.specs.Asks.{follow, Ask, Give, Gains};
ghost use Rattle.read_set.specs.Notes.{note_of, noted};
ghost use Rattle.read_set.specs.Stops.{Follows};

use crate::shelf::TracedRecords;
use circ_records::{Key, Record};
use read_set::{Note, NotedRecord, Notes, Source, Stop};
use std::alloc::Global;
use std::marker::{Brand, PhantomData};

/// Names one shelf in a type, for contracts alone. Each use chooses a name.
pub trait ShelfName {
    ghost use Rattle.std.specs.Prelude.{ℕ, List};
    ghost use Rattle.circ_records.specs.Records.{Entries};
    ghost use Rattle.circ_records.specs.declared.key.Key.{Key};

    ghost records: { Entries };

    ghost writers: { List (Key × ℕ) };
}

impl ShelfName for Brand {
    ghost use Rattle.std.specs.Prelude.{[]};

    ghost records = { [] };

    ghost writers = { [] };
}

/// A shelf, and what was read from it. Its type names the shelf, so what is noted stays true whatever is read.
#[derive(Drop)]
pub struct Looking<'s, N: ShelfName> {
    shelf: &'s TracedRecords,
    notes: Notes,
    of: PhantomData<N>,
    ghost named: { (shelf.now.live ≡ N.records) × (shelf.now.writers.entries ≡ N.writers) },
    ghost seen: { AreSeen N.records N.writers notes },
}

ghost use Rattle.line_origins.specs.Origins.{AreSeen};

impl<'s, N: ShelfName> Looking<'s, N> {
    /// Nothing is noted yet.
    pub fn new(alloc: Global, shelf: &'s TracedRecords) -> Looking<'s, N>
        requires records { shelf.now.live ≡ N.records }
        requires writers { shelf.now.writers.entries ≡ N.writers }
        ensures { result.notes ≡ [] }
    {
        Looking {
            shelf,
            notes: Notes::new(alloc),
            of: PhantomData,
        }
    }

    /// What was noted.
    pub fn into_notes(self) -> Notes
        ensures notes { result ≡ self.entry.notes }
        ensures seen { AreSeen N.records N.writers result }
    {
        let Looking {
            shelf: _,
            notes,
            of: _,
        } = self;
        notes
    }

    /// Looks at a record that isn't noted, notes it and returns it.
    #[tactic(auto, using(read_set::proofs::Gaining::gains_none))]
    fn take(&mut self, alloc: Global, key: &Key) -> Result<Option<Record>, Stop>
        requires { note_of self.old.notes key.now ≡ None }
        ensures gives { Follows result (follow (noted self.new.notes) (Ask key.now Give)) }
        ensures keeps { Gains ⊤ (noted self.old.notes) (noted self.new.notes) (Ask key.now Give) }
    {
        let name = self.shelf.name(key);
        let found = self.shelf.record(key)?;
        let found = NotedRecord::new(found);
        let copy = found.record()?;
        self.notes.add(Note {
            key: key.clone()?,
            name,
            found,
        })?;
        Ok(copy)
    }
}

impl<N: ShelfName> Source for Looking<'_, N> {
    ghost use Rattle.std.specs.Prelude.{⊤};
    ghost use Rattle.read_set.specs.Notes.{noted};

    ghost has = { λ s. noted s.notes };

    ghost one_by_one = { ⊤ };

    #[tactic(auto, using(read_set::proofs::Gaining::gains_none))]
    fn read(&mut self, alloc: Global, key: &Key) -> Result<Option<Record>, Stop> {
        match self.notes.get(key) {
            Some(note) => Ok(note.found.record()?),
            None => self.take(alloc, key),
        }
    }
}
