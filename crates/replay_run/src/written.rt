//! The keys of what lines write.

ghost use Rattle.std.specs.Prelude.{◌≡◌, ◌<◌, ◌^◌, ◌++◌, ◌∷◌, [], List, IfOk, OnOk, length, map, option_copied, slice_get, unwrap_or};
ghost use Rattle.circ_records.specs.declared.key.Key.{Key};

use circ_records::{Key, Record};
use std::alloc::{AllocError, Global};
use std::marker::Model;

/// The keys of the records that lines wrote, line after line.
#[derive(Drop)]
pub struct WrittenKeys {
    keys: Vec<Key>,
    /// For each line, which of the keys are those that it wrote.
    spans: Vec<Span>,
}

/// A number of keys from a position on.
#[derive(Clone, Copy)]
struct Span {
    from: usize,
    count: usize,
}

impl Model for WrittenKeys {
    ghost use Rattle.std.specs.Prelude.{List, map};
    ghost use Rattle.std.specs.List.{AllByRecursion};
    ghost use Rattle.circ_records.specs.declared.key.Key.{Key};
    ghost use Rattle.replay_run.specs.Devices.Spans.{IsWithin, keys_in};

    ghost Value = { List (List Key) };

    ghost view = { λ w. map (keys_in w.keys.items) w.spans.items };

    ghost invariant = { λ w. AllByRecursion (IsWithin w.keys.items) w.spans.items };
}

impl WrittenKeys {
    /// Begins with no lines, with capacity for this number of lines.
    pub fn with_room(alloc: Global, lines: usize) -> Result<WrittenKeys, AllocError>
        ensures { IfOk result (λ w. w ≡ []) }
    {
        Ok(WrittenKeys {
            keys: Vec::new(alloc),
            spans: Vec::with_capacity(alloc, lines)?,
        })
    }

    /// Adds a line, which wrote these records, after those that are there.
    pub fn add(&mut self, writes: &[(Key, Record)]) -> Result<(), AllocError>
        ensures { OnOk result (self.new ≡ self.old ++ map (λ w. w.0) writes.now ∷ []) }
    {
        let from = self.keys.len();
        put_keys(&mut self.keys, writes)?;
        self.spans.push(Span {
            from,
            count: writes.len(),
        })?;
        Ok(())
    }

    /// Gives the i-th key, from 0, that the line at a place wrote; None past the last.
    pub fn get(&self, place: usize, i: usize) -> Option<&Key>
        ensures key { option_copied result ≡ slice_get (unwrap_or (slice_get self.now place) []) i }
        ensures few { length (unwrap_or (slice_get self.now place) []) < 2 ^ 64 }
    {
        let span = *self.spans.get(place)?;
        if i >= span.count {
            return None;
        }
        self.keys.get(span.from + i)
    }
}

/// Appends the keys of records to a list of keys.
fn put_keys(keys: &mut Vec<Key>, records: &[(Key, Record)]) -> Result<(), AllocError>
    ensures put { OnOk result (keys.new.items ≡ keys.old.items ++ map (λ w. w.0) records.now) }
    ensures behind { (more : List Key) × (keys.new.items ≡ keys.old.items ++ more) }
{
    for entry in records {
        keys.push(entry.0.clone()?)?;
    }
    Ok(())
}
