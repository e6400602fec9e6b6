//! What a line has read.

ghost use Rattle.std.specs.Prelude.{◌≡◌, ◌++◌, ◌∷◌, [], Some, None, cond, IfOk, OnOk, OnErr};
ghost use Rattle.std.specs.BTreeMap.{is_at};
ghost use Rattle.std.specs.Map.{lookup};
ghost use Rattle.std.specs.Option.{option_copied};
ghost use Rattle.circ_records.specs.Keys.{key_cmp};
ghost use Rattle.circ_records.specs.declared.key.Key.{Key};
ghost use Rattle.read_set.specs.Notes.{note_of, IsOnceEach};
ghost use Rattle.read_set.specs.Devices.Positions.{first, positions_in};

use crate::found::NotedRecord;
use circ_records::Key;
use std::alloc::{AllocError, Global};
use std::collections::BTreeMap;
use std::marker::Model;

/// Who wrote a record: it is the base's, or an attempt at a line wrote it. The attempt comes first, so that it shares a
/// machine word with the discriminant.
#[derive(Clone, Copy, PartialEq, Eq)]
pub enum Name {
    Base,
    Made { attempt: u32, line: u64 },
}

/// What was found at a key: a record or none, and its name.
pub struct Note {
    pub key: Key,
    pub name: Name,
    pub found: NotedRecord,
}

impl Drop for Note {
    fn drop(self) {
        let Note {
            key: _,
            name: _,
            found: _,
        } = self;
    }
}

impl Note {
    /// A copy of the note.
    pub fn copy(&self) -> Result<Note, AllocError>
        ensures { IfOk result (λ n. n ≡ self.now) }
    {
        Ok(Note {
            key: self.key.clone()?,
            name: self.name,
            found: self.found.copy()?,
        })
    }
}

/// Up to this many notes are searched one by one: most lines have no more, and a map takes more memory than they do.
const LIST_MAX: usize = 8;

/// The first allocation has capacity for this many notes: most lines have no more, and versions are kept until the run ends.
const USUAL: usize = 2;

/// What a line has read, in the order of reading. No key is noted twice.
pub struct Notes {
    notes: Vec<Note>,
    /// The positions of the notes after the first `LIST_MAX`, by key.
    positions: Option<Box<BTreeMap<Key, usize>>>,
}

impl Drop for Notes {
    fn drop(self) {
        let Notes {
            notes: _,
            positions: _,
        } = self;
    }
}

impl Model for Notes {
    ghost use Rattle.std.specs.Prelude.{List};
    ghost use Rattle.read_set.specs.declared.notes.Note.{Note};

    ghost Value = { List Note };

    ghost use Rattle.read_set.specs.Devices.Positions.{AreNoted, positions_in};

    ghost view = { λ n. n.notes.items };

    ghost invariant = { λ n. AreNoted n.notes.items (positions_in n.positions) };
}

impl Notes {
    /// No notes.
    pub fn new(alloc: Global) -> Notes
        ensures { result ≡ [] }
    {
        Notes {
            notes: Vec::new(alloc),
            positions: None,
        }
    }

    /// Adds a note, of a key that isn't noted. Out of memory, nothing changes.
    pub fn add(&mut self, note: Note) -> Result<(), AllocError>
        requires { note_of self.old note.key ≡ None }
        ensures ok { OnOk result (self.new ≡ self.old ++ note ∷ []) }
        ensures err { OnErr result (self.new ≡ self.old) }
    {
        if self.notes.len() >= LIST_MAX {
            return self.add_later(note);
        }
        make_first_room(&mut self.notes)?;
        self.notes.push(note)?;
        Ok(())
    }

    /// Adds a note after the first `LIST_MAX`, with its position. Out of memory, nothing changes.
    fn add_later(&mut self, note: Note) -> Result<(), AllocError>
        requires { note_of self.old note.key ≡ None }
        ensures ok { OnOk result (self.new ≡ self.old ++ note ∷ []) }
        ensures err { OnErr result (self.new ≡ self.old) }
    {
        let (key, position) = (note.key.clone()?, self.notes.len());
        self.notes.push(note)?;
        match put_position(*self.notes.allocator(), &mut self.positions, key, position) {
            Ok(()) => Ok(()),
            Err(_) => {
                self.notes.pop();
                Err(AllocError)
            }
        }
    }

    /// The note of a key, if it is noted.
    pub fn get(&self, key: &Key) -> Option<&Note>
        ensures { option_copied result ≡ note_of self.now key.now }
    {
        match position_in(&self.positions, key) {
            Some(position) => self.notes.get(position),
            None => note_among(first(self.notes.as_slice()), key),
        }
    }

    /// The notes in the order of reading, in no more memory than they need.
    pub(crate) fn into_vec(self) -> Vec<Note>
        ensures { result.items ≡ self }
    {
        let Notes {
            mut notes,
            positions: _,
        } = self;
        notes.shrink_to_fit();
        notes
    }

    /// The notes in the order of reading.
    pub fn as_slice(&self) -> &[Note]
        ensures notes { result.now ≡ self.now }
        ensures once { IsOnceEach self.now }
    {
        self.notes.as_slice()
    }

    /// A copy of the notes.
    pub fn copy(&self, alloc: Global) -> Result<Notes, AllocError>
        ensures { IfOk result (λ n. n ≡ self.now) }
    {
        copy_notes(alloc, self.as_slice())
    }
}

/// Allocates memory for the first notes. Out of memory, nothing changes.
fn make_first_room(notes: &mut Vec<Note>) -> Result<(), AllocError>
    ensures { notes.new.items ≡ notes.old.items }
{
    if notes.is_empty() {
        notes.reserve_exact(USUAL)?;
    }
    Ok(())
}

/// The first `LIST_MAX` notes.
fn first(notes: &[Note]) -> &[Note]
    ensures { result.now ≡ first notes.now }
{
    if notes.len() <= LIST_MAX {
        notes
    } else {
        &notes[..LIST_MAX]
    }
}

/// The note of a key among these, if there is one; the keys are compared one by one.
fn note_among<'n>(notes: &'n [Note], key: &Key) -> Option<&'n Note>
    ensures { option_copied result ≡ note_of notes.now key.now }
{
    for note in notes {
        if *key == note.key {
            return Some(note);
        }
    }
    None
}

/// The position of a key's note in the map of positions, if it has one there.
fn position_in(positions: &Option<Box<BTreeMap<Key, usize>>>, key: &Key) -> Option<usize>
    ensures { result ≡ lookup (is_at (key_cmp key.now)) (positions_in positions.now) }
{
    match positions {
        Some(map) => map.get(key).copied(),
        None => None,
    }
}

/// Adds the position of a key's note to the map. Out of memory, nothing changes.
fn put_position(
    alloc: Global,
    positions: &mut Option<Box<BTreeMap<Key, usize>>>,
    key: Key,
    position: usize,
) -> Result<(), AllocError>
    ensures ok { OnOk result ((k : Key) → lookup (is_at (key_cmp k)) (positions_in positions.new) ≡ cond (is_at (key_cmp key) k) (Some position) (lookup (is_at (key_cmp k)) (positions_in positions.old))) }
    ensures err { OnErr result (positions_in positions.new ≡ positions_in positions.old) }
{
    let mut map = match positions.take() {
        Some(map) => map,
        None => Box::new(alloc, BTreeMap::new(alloc))?,
    };
    let put = map.insert(key, position);
    *positions = Some(map);
    match put {
        Ok(_) => Ok(()),
        Err(_) => Err(AllocError),
    }
}

fn copy_notes(alloc: Global, notes: &[Note]) -> Result<Notes, AllocError>
    requires { IsOnceEach notes.now }
    ensures { IfOk result (λ n. n ≡ notes.now) }
{
    let mut copies = Notes::new(alloc);
    for note in notes {
        copies.add(note.copy()?)?;
    }
    Ok(copies)
}
