//! The requests of a journal, read one after the other or by all cores.

ghost use Rattle.std.specs.Prelude.{◌≡◌, ◌≤◌, IfOk, length, map, option_copied, slice_get};
ghost use Rattle.std.specs.List.{AllByRecursion};
ghost use Rattle.journal_table.specs.declared.TheConstants.{LINE_LIMIT};
ghost use Rattle.journal_table.specs.Readings.{EndInTime, IsRead, Rises, first_read, reading_at, readings_of, requests_read};
ghost use Rattle.journal_table.specs.Stretches.{AreStretchesOf, stretches_of};

use crate::journal::Journal;
use crate::line::Line;
use rayon::prelude::*;
use sip_reader::{Reading, read_request};
use std::alloc::{AllocError, Global};
use std::marker::Model;
use std::thread::Threads;

/// The number of lines in a stretch: what one core takes at a time where all cores read or report
/// lines. The last stretch may have fewer.
pub const STRETCH: usize = 4096;

/// What the request of each line is read as. The numbers of the lines rise by one from the first.
///
/// The readings stay in the stretches in which they were read, so that none of them moves again.
pub struct Readings {
    first: u64,
    count: usize,
    stretches: Vec<Vec<Reading>>,
}

impl Drop for Readings {
    fn drop(self) {
        let Readings {
            first: _,
            count: _,
            stretches: _,
        } = self;
    }
}

impl Model for Readings {
    ghost use Rattle.std.specs.Prelude.{List};
    ghost use Rattle.journal_table.specs.Readings.{NumberedReading, numbered_from};
    ghost use Rattle.journal_table.specs.Stretches.{IsKept, joined, stretches_of};

    ghost Value = { List NumberedReading };

    ghost view = { λ r. numbered_from r.first (joined (stretches_of r.stretches.items)) };

    ghost invariant = { IsKept };
}

impl Readings {
    /// The readings of a journal's lines, from the stretches in which they were read.
    fn of(journal: &Journal, stretches: Vec<Vec<Reading>>) -> Readings
        requires { AreStretchesOf (requests_read journal.now) (stretches_of stretches.items) }
        ensures { result ≡ readings_of journal.now }
    {
        Readings {
            first: journal.first().unwrap_or(0),
            count: journal.lines().len(),
            stretches,
        }
    }

    /// Gives the number of the first line; None exactly if there is no line.
    pub fn first(&self) -> Option<u64>
        ensures value { result ≡ first_read self.now }
        ensures numbered { Rises self.now }
        ensures within { EndInTime self.now }
    {
        if self.count == 0 {
            None
        } else {
            Some(self.first)
        }
    }

    /// Gives how many lines were read, at most 1,000,000. The contract also says that each reading
    /// is that of some message.
    pub fn len(&self) -> usize
        ensures len { result ≡ length self.now }
        ensures few { length self.now ≤ LINE_LIMIT }
        ensures read { AllByRecursion IsRead (map reading_at self.now) }
    {
        self.count
    }

    /// Gives what the request of the line at a position, from 0, is read as; None past the last.
    pub fn get(&self, place: usize) -> Option<&Reading>
        ensures { option_copied result ≡ slice_get (map reading_at self.now) place }
    {
        let stretch = self.stretches.get(place / STRETCH)?;
        stretch.get(place % STRETCH)
    }
}

/// Reads every request of a journal, each once, in the order of the lines.
pub fn read_in_turn(alloc: Global, journal: &Journal) -> Result<Readings, AllocError>
    ensures { IfOk result (λ readings. readings ≡ readings_of journal.now) }
{
    let lines = journal.lines();
    let mut stretches = Vec::with_capacity(alloc, lines.len() / STRETCH + 1)?;
    let mut from = 0;
    while from < lines.len() {
        let len = (lines.len() - from).min(STRETCH);
        stretches.push(read_stretch(alloc, &lines[from..from + len])?)?;
        from += len;
    }
    Ok(Readings::of(journal, stretches))
}

/// Reads every request of a journal on all processors, and gives just what `read_in_turn` gives,
/// whatever the threads did.
pub fn read_all(
    rt: &(impl Threads + Sync),
    alloc: Global,
    journal: &Journal,
) -> Result<Readings, AllocError>
    ensures { IfOk result (λ readings. readings ≡ readings_of journal.now) }
{
    let lines = journal.lines();
    let stretches: Result<Vec<Vec<Reading>>, AllocError> = lines
        .par_chunks(STRETCH)
        .map(
            |stretch: &[Line]| -> Result<Vec<Reading>, AllocError>
                ensures { IfOk result (λ v. v.items ≡ requests_read stretch.now) }
            { read_stretch(alloc, stretch) },
        )
        .collect(rt, alloc)?;
    Ok(Readings::of(journal, stretches?))
}

/// Reads the requests of one stretch of lines.
fn read_stretch(alloc: Global, lines: &[Line]) -> Result<Vec<Reading>, AllocError>
    ensures { IfOk result (λ v. v.items ≡ requests_read lines.now) }
{
    let mut readings = Vec::with_capacity(alloc, lines.len())?;
    for line in lines {
        // the capacity suffices, so no growth has to be tested for
        readings.push_reserved(read_request(alloc, line.parts().request)?);
    }
    Ok(readings)
}
