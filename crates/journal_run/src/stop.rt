//! What ends a run before its journal is whole, and the status of that.

ghost use Rattle.std.specs.Prelude.{◌≡◌, ◌++◌, ℕ, Bool, IfOk, List, Some, codes, string_bytes};
ghost use Rattle.outside.specs.Events.{Tell, noted};
ghost use Rattle.journal_run.specs.Stops.{Tells, error_text, place_text, status_of, stop_text};
ghost use Rattle.journal_run.specs.declared.stop.JournalStop.TheVariants as stops;
ghost use Rattle.journal_run.specs.declared.stop.MakingError.TheVariants as errors;

use crate::place::LogPlace;
use outside::Outside;
use std::alloc::{AllocError, AllocFailed, Global};
use std::{fmt, io};

/// The status of a command line or a line of a log that is refused.
pub const REFUSED: u8 = 2;

/// The status of a run that a file, standard output or lack of memory stopped.
const FAILED: u8 = 3;

/// Why nothing more is found.
#[derive(Drop)]
pub enum MakingError {
    /// Memory ran out.
    Memory,
    /// What is refused, and why.
    Refused(String),
    /// The file of this path can't be read.
    File(String),
}

impl From<AllocError> for MakingError {
    ghost from_gives = { λ _ error. error ≡ errors.Memory };

    fn from(_error: AllocError) -> MakingError {
        MakingError::Memory
    }
}

impl<T: Drop> From<AllocFailed<T>> for MakingError {
    ghost from_gives = { λ _ error. error ≡ errors.Memory };

    fn from(_error: AllocFailed<T>) -> MakingError {
        MakingError::Memory
    }
}

impl fmt::Display for MakingError {
    ghost output = { λ error. Some (error_text error) };

    fn fmt<W: fmt::Write>(&self, f: &mut fmt::Formatter<W>) -> fmt::Result {
        match self {
            MakingError::Memory => f.write_str("error: out of memory"),
            MakingError::Refused(text) => write!(f, "error: {text}"),
            MakingError::File(text) => write!(f, "file: {text}"),
        }
    }
}

impl MakingError {
    /// The stop of a log that answered with an error. Where memory is what it lacked, the file isn't to blame.
    pub fn of_file(alloc: Global, error: &io::Error, path: &str) -> MakingError {
        if error.kind() == io::ErrorKind::OutOfMemory {
            return MakingError::Memory;
        }
        match format!(in alloc; "{path}: {error}") {
            Ok(text) => MakingError::File(text),
            Err(_) => MakingError::Memory,
        }
    }

    /// What is refused, and the word that is to blame.
    pub fn refused(alloc: Global, what: &str, word: &str) -> MakingError
        ensures { Tells (what.now ++ (codes " " ++ word.now)) result }
    {
        MakingError::refused_text(format!(in alloc; "{what} {word}"))
    }

    /// A line of a log that is refused.
    pub fn of_line(alloc: Global, place: LogPlace<'_>, why: &str) -> MakingError
        ensures { Tells (place_text place.entry ++ (codes ": " ++ why.now)) result }
    {
        MakingError::refused_text(format!(in alloc; "{place}: {why}"))
    }

    /// What is refused, by this text, unless memory ran out for it.
    pub fn refused_text(text: Result<String, AllocError>) -> MakingError
        ensures { (bytes : List ℕ) → IfOk text (λ told. string_bytes told ≡ bytes) → Tells bytes result }
    {
        match text {
            Ok(text) => MakingError::Refused(text),
            Err(_) => MakingError::Memory,
        }
    }
}

/// Why a run ends before its journal is whole.
#[derive(Drop)]
pub enum JournalStop {
    /// Nothing more is found.
    Source(MakingError),
    /// The journal would be of no use.
    Useless(&'static str),
    /// Standard output takes nothing more.
    Output,
}

impl From<MakingError> for JournalStop {
    ghost from_gives = { λ error stop. stop ≡ stops.Source error };

    fn from(error: MakingError) -> JournalStop {
        JournalStop::Source(error)
    }
}

impl From<AllocError> for JournalStop {
    ghost from_gives = { λ _ stop. stop ≡ stops.Source errors.Memory };

    fn from(_error: AllocError) -> JournalStop {
        JournalStop::Source(MakingError::Memory)
    }
}

/// The line that is printed about it.
impl fmt::Display for JournalStop {
    ghost output = { λ stop. Some (stop_text stop) };

    fn fmt<W: fmt::Write>(&self, f: &mut fmt::Formatter<W>) -> fmt::Result {
        match self {
            JournalStop::Source(error) => write!(f, "{error}\n"),
            JournalStop::Useless(text) => write!(f, "error: {text}\n"),
            JournalStop::Output => f.write_str("error: standard output takes nothing more\n"),
        }
    }
}

impl JournalStop {
    /// Prints what stopped the run, and returns its status. A failure to print changes no status.
    pub fn tell<O: Outside>(&self, outside: &mut O) -> u8
        ensures status { result ≡ status_of self.now }
        ensures told { (taken : Bool) × (O.log outside.new ≡ noted (Tell (stop_text self.now) taken) (O.log outside.old)) }
    {
        let _taken = outside.tell(self);
        self.status()
    }

    fn status(&self) -> u8
        ensures { result ≡ status_of self.now }
    {
        match self {
            JournalStop::Source(MakingError::Refused(_)) | JournalStop::Useless(_) => REFUSED,
            _ => FAILED,
        }
    }
}
