//! What a line has noted while it runs.

ghost use Rattle.std.specs.Prelude.{◌≡◌, ◌++◌, ◌∷◌, [], None, cond, OnOk, OnErr, length, slice_get, map, true, false, option_map};
ghost use Rattle.std.specs.Ordering.{eq_by_cmp};
ghost use Rattle.circ_records.specs.Keys.{key_cmp};
ghost use Rattle.circ_records.specs.declared.key.Key.{Key};
ghost use Rattle.board_lines.specs.Notes.{few, is_indexed, is_key_in, is_noted, note_with, noted, AreNoted, AreOnce, ArePlaced, IsPlaced};

use circ_records::Key;
use read_set::{Name, PlanName};
use std::alloc::{AllocError, Global};
use std::collections::BTreeSet;
use std::marker::Model;
use version_store::Place;

/// A note: a key, the name under which it was seen, and the place of the version whose record was
/// seen; no place for the base.
pub struct PlaceNote<'t, J: PlanName> {
    pub key: Key,
    pub name: Name,
    pub place: Option<Place<'t, J>>,
}

impl<J: PlanName> Drop for PlaceNote<'_, J> {
    fn drop(self) {
        let PlaceNote {
            key: _,
            name: _,
            place: _,
        } = self;
    }
}

impl<J: PlanName> PlaceNote<'_, J> {
    fn into_key(self) -> Key
        ensures { result ≡ self.entry.key }
    {
        let PlaceNote {
            key,
            name: _,
            place: _,
        } = self;
        key
    }
}

/// Up to this many notes are searched one by one: most lines have no more, and an index of them
/// would take more memory.
const SCANNED_MAX: usize = 8;

/// The first allocation has capacity for this many notes: most lines have two.
const FIRST_ROOM: usize = 2;

/// The notes of a line that has some, in the order of looking.
struct NoteList<'t, J: PlanName> {
    notes: Vec<PlaceNote<'t, J>>,
    /// An index of the keys of all notes after the first `SCANNED_MAX`. Most lines never need one.
    index: Option<Box<BTreeSet<Key>>>,
}

impl<J: PlanName> Drop for NoteList<'_, J> {
    fn drop(self) {
        let NoteList { notes: _, index: _ } = self;
    }
}

/// The memory of one line's notes, kept for the notes of another line: usually a line is committed
/// just before the next is run, and allocating and freeing costs more than the notes do.
pub(crate) struct Spare<'t, J: PlanName> {
    held: Option<Box<NoteList<'t, J>>>,
}

impl<J: PlanName> Drop for Spare<'_, J> {
    fn drop(self) {
        let Spare { held: _ } = self;
    }
}

impl<'t, J: PlanName> Spare<'t, J> {
    /// No spare memory.
    pub(crate) fn new() -> Spare<'t, J> {
        Spare { held: None }
    }
}

/// What a line has noted, in the order of looking: keys, names and places, but no record. The board
/// has such a value for each line until the run ends, but a line has notes only until it is
/// committed. So the notes are in a box, which is allocated with the first note: without notes the
/// value is small.
pub struct PlaceNotes<'t, J: PlanName> {
    held: Option<Box<NoteList<'t, J>>>,
}

impl<J: PlanName> Drop for PlaceNotes<'_, J> {
    fn drop(self) {
        let PlaceNotes { held: _ } = self;
    }
}

impl<'t, J: PlanName> Model for PlaceNotes<'t, J> {
    ghost use Rattle.std.specs.Prelude.{List, map};
    ghost use Rattle.board_lines.specs.Notes.{Noted};

    ghost Value = { List Noted };

    ghost use Rattle.board_lines.specs.Devices.Held.{index_in, notes_in};
    ghost use Rattle.board_lines.specs.Notes.{AreNoted, noted};

    ghost view = { λ n. map noted (notes_in n.held) };

    ghost invariant = { λ n. AreNoted (notes_in n.held) (index_in n.held) };
}

impl<'t, J: PlanName> PlaceNotes<'t, J> {
    /// Makes a list of no notes.
    pub fn new() -> PlaceNotes<'t, J>
        ensures { result ≡ [] }
    {
        PlaceNotes { held: None }
    }

    /// True exactly if this key is noted.
    pub fn has(&self, key: &Key) -> bool
        ensures { result ≡ is_noted self.now key.now }
    {
        match &self.held {
            Some(held) => is_among(first_few(&held.notes), key) || is_indexed(&held.index, key),
            None => false,
        }
    }

    /// Adds a note, of a key that isn't noted. It has no place if and only if the base was seen.
    /// The first note uses the spare memory. Out of memory, nothing changes.
    pub(crate) fn add(
        &mut self,
        alloc: Global,
        spare: &mut Spare<'t, J>,
        key: &Key,
        name: Name,
        place: Option<Place<'t, J>>,
    ) -> Result<(), AllocError>
        requires fresh { is_noted self.old key.now ≡ false }
        requires placed { IsPlaced (note_with key.now name place) }
        ensures ok { OnOk result (self.new ≡ self.old ++ note_with key.now name place.entry ∷ []) }
        ensures err { OnErr result (self.new ≡ self.old) }
    {
        if let Some(held) = &mut self.held {
            return held.add(alloc, key, name, place);
        }
        let mut held = match spare.held.take() {
            Some(held) => held,
            None => {
                let notes = Vec::with_capacity(alloc, FIRST_ROOM)?;
                Box::new(alloc, NoteList { notes, index: None })?
            }
        };
        held.empty();
        held.add(alloc, key, name, place)?;
        self.held = Some(held);
        Ok(())
    }

    /// Removes all notes. Their memory is kept as spare memory where they are at most
    /// `SCANNED_MAX`, else it is freed.
    pub(crate) fn clear(&mut self, spare: &mut Spare<'t, J>)
        ensures { self.new ≡ [] }
    {
        if let Some(held) = self.held.take() {
            if held.notes.len() <= SCANNED_MAX {
                spare.held = Some(held);
            }
        }
    }

    /// Removes all notes, and returns the key of the i-th one, counted from 0.
    pub(crate) fn take_key(&mut self, spare: &mut Spare<'t, J>, i: usize) -> Option<Key>
        ensures key { result ≡ option_map (λ n. n.key) (slice_get self.old i) }
        ensures none { self.new ≡ [] }
    {
        let Some(mut held) = self.held.take() else {
            return None;
        };
        let key = held.take_key(i);
        if held.notes.len() <= SCANNED_MAX {
            spare.held = Some(held);
        }
        key
    }

    /// Gives how many notes there are. No key is noted twice, and exactly the notes of the base
    /// have no place.
    pub fn len(&self) -> usize
        ensures count { result ≡ length self.now }
        ensures once { AreOnce self.now }
        ensures placed { ArePlaced self.now }
    {
        match &self.held {
            Some(held) => held.notes.len(),
            None => 0,
        }
    }

    /// Gives the i-th note, from 0, in the order of looking; None past the last.
    pub fn get(&self, i: usize) -> Option<&PlaceNote<'t, J>>
        ensures { option_map (λ n. noted n.now) result ≡ slice_get self.now i }
    {
        let Some(held) = &self.held else {
            return None;
        };
        held.notes.get(i)
    }
}

impl<'t, J: PlanName> NoteList<'t, J> {
    /// Removes all notes, and keeps their memory.
    fn empty(&mut self)
        ensures notes { self.new.notes.items ≡ [] }
        ensures index { self.new.index ≡ None }
    {
        self.notes.clear();
        self.index = None;
    }

    /// The key of the i-th note, from 0, moved out.
    fn take_key(&mut self, i: usize) -> Option<Key>
        ensures { result ≡ option_map (λ n. n.key) (slice_get self.old.notes.items i) }
    {
        if i >= self.notes.len() {
            return None;
        }
        Some(self.notes.swap_remove(i).into_key())
    }

    /// Adds a note, of a key that isn't noted. Out of memory, the notes stay as they are.
    fn add(
        &mut self,
        alloc: Global,
        key: &Key,
        name: Name,
        place: Option<Place<'t, J>>,
    ) -> Result<(), AllocError>
        requires noted { AreNoted self.old.notes.items self.old.index }
        requires fresh { is_noted (map noted self.old.notes.items) key.now ≡ false }
        requires placed { IsPlaced (note_with key.now name place) }
        ensures noted { AreNoted self.new.notes.items self.new.index }
        ensures ok { OnOk result (map noted self.new.notes.items
            ≡ map noted self.old.notes.items ++ note_with key.now name place.entry ∷ []) }
        ensures err { OnErr result
            (map noted self.new.notes.items ≡ map noted self.old.notes.items) }
    {
        let position = self.notes.len();
        let key_of_note = key.clone()?;
        let Ok(()) = self.notes.push(PlaceNote {
            key: key_of_note,
            name,
            place,
        })
        else {
            return Err(AllocError);
        };
        if position < SCANNED_MAX {
            return Ok(());
        }
        match enter(alloc, &mut self.index, key) {
            Ok(()) => Ok(()),
            Err(refused) => {
                self.notes.pop();
                Err(refused)
            }
        }
    }
}

/// The notes that are searched one by one.
fn first_few<'n, 't, J: PlanName>(notes: &'n [PlaceNote<'t, J>]) -> &'n [PlaceNote<'t, J>]
    ensures { result.now ≡ few notes.now }
{
    if notes.len() <= SCANNED_MAX {
        notes
    } else {
        &notes[..SCANNED_MAX]
    }
}

/// Whether a key is noted in one of these notes.
fn is_among<J: PlanName>(notes: &[PlaceNote<'_, J>], key: &Key) -> bool
    ensures { result ≡ is_key_in notes.now key.now }
{
    notes.iter().any(|note| *key == note.key)
}

/// Whether a key is in the index, if there is one.
fn is_indexed(index: &Option<Box<BTreeSet<Key>>>, key: &Key) -> bool
    ensures { result ≡ is_indexed index.now key.now }
{
    match index {
        Some(keys) => keys.contains(key),
        None => false,
    }
}

/// Adds a key to the index, which is made for the first one. Out of memory, no key is added.
fn enter(alloc: Global, index: &mut Option<Box<BTreeSet<Key>>>, key: &Key) -> Result<(), AllocError>
    ensures put { OnOk result
        ((q : Key) → is_indexed index.new q ≡ cond (eq_by_cmp key_cmp key.now q) true
        (is_indexed index.old q)) }
    ensures same { OnErr result ((q : Key) → is_indexed index.new q ≡ is_indexed index.old q) }
{
    let own = key.clone()?;
    if let Some(keys) = index {
        return match keys.insert(own) {
            Ok(_) => Ok(()),
            Err(_) => Err(AllocError),
        };
    }
    let mut keys = BTreeSet::new(alloc);
    keys.insert(own)?;
    *index = Some(Box::new(alloc, keys)?);
    Ok(())
}
