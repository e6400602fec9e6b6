//! Notes as sources of records: notes that never change, and notes to which each look adds one.

ghost use Rattle.std.specs.Prelude.{◌≡◌, IfOk, IfSome, ⊤};

use crate::notes::{Note, Notes};
use crate::source::{Source, Stop};
use circ_records::{Key, Record};
use std::alloc::{AllocError, Global};
use std::marker::{Brand, PhantomData};

/// A type that represents certain notes, so that contracts can name them. Each use has a type of its own.
pub trait NotesName {
    ghost use Rattle.std.specs.Prelude.{List};
    ghost use Rattle.read_set.specs.declared.notes.Note.{Note};

    ghost notes: { List Note };
}

impl NotesName for Brand {
    ghost use Rattle.std.specs.Prelude.{[]};

    ghost notes = { [] };
}

/// Notes that never change, as a source of records, which stops at a key that isn't noted. The type names the notes, so
/// contracts can say that no read changes them.
#[derive(Drop)]
pub struct NotesSource<'n, N: NotesName> {
    notes: &'n Notes,
    of: PhantomData<N>,
    ghost named: { notes.now ≡ N.notes },
}

impl<'n, N: NotesName> NotesSource<'n, N> {
    /// The notes that the type names.
    pub fn new(notes: &'n Notes) -> NotesSource<'n, N>
        requires { notes.now ≡ N.notes }
    {
        NotesSource {
            notes,
            of: PhantomData,
        }
    }
}

impl<N: NotesName> Source for NotesSource<'_, N> {
    ghost use Rattle.read_set.specs.Notes.{noted};

    ghost has = { λ s. noted N.notes };

    ghost one_by_one = { ⊤ };

    #[tactic(auto, using(crate::proofs::Gaining::gains_none))]
    fn read(&mut self, alloc: Global, key: &Key) -> Result<Option<Record>, Stop> {
        match self.notes.get(key) {
            Some(note) => Ok(note.found.record()?),
            None => Err(Stop::Unnoted(key.clone()?)),
        }
    }
}

/// Where to look for a record that isn't noted yet.
pub trait RecordReader {
    /// The note of what is now at a key, a record or none; None where the attempt has to end.
    fn look(&mut self, alloc: Global, key: &Key) -> Result<Option<Note>, AllocError>
        ensures { IfOk result (λ found. IfSome found (λ note. note.key ≡ key.now)) };
}

/// A source that looks for what isn't noted yet, and notes what it sees. It stops where a look returns None.
#[derive(Drop)]
pub struct RecordingSource<L: RecordReader> {
    pub notes: Notes,
    pub reader: L,
}

impl<L: RecordReader> Source for RecordingSource<L> {
    ghost use Rattle.read_set.specs.Notes.{noted};

    ghost has = { λ s. noted s.notes };

    ghost one_by_one = { ⊤ };

    #[tactic(auto, using(crate::proofs::Gaining::gains_none))]
    fn read(&mut self, alloc: Global, key: &Key) -> Result<Option<Record>, Stop> {
        if let Some(note) = self.notes.get(key) {
            return Ok(note.found.record()?);
        }
        let Some(note) = self.reader.look(alloc, key)? else {
            return Err(Stop::Unnoted(key.clone()?));
        };
        let copy = note.found.record()?;
        self.notes.add(note)?;
        Ok(copy)
    }
}
