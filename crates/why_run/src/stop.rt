//! What ends a run before its end, and the status of that.

ghost use Rattle.std.specs.Prelude.{◌≡◌, Bool, Some};
ghost use Rattle.outside.specs.Events.{Tell, noted};
ghost use Rattle.why_run.specs.Stops.{status_of, stop_text};
ghost use Rattle.why_run.specs.declared.stop.NotExplained.TheVariants as reasons;
ghost use Rattle.why_run.specs.declared.stop.WhyStop.TheVariants as stops;

use outside::{FileStop, Outside};
use std::alloc::{AllocError, AllocFailed};
use std::fmt;

/// The status of a command line, an input or a line that is refused.
pub const REFUSED: u8 = 2;

/// The status of a run that a file, standard output or lack of memory stopped.
pub const FAILED: u8 = 3;

/// Why nothing is explained of what was read.
#[derive(Drop)]
pub enum NotExplained {
    /// Memory ran out.
    Memory,
    /// What was read is refused: the line that is printed about it, with its line end.
    Refused(String),
}

impl From<AllocError> for NotExplained {
    ghost from_gives = { λ _ why. why ≡ reasons.Memory };

    fn from(_error: AllocError) -> NotExplained {
        NotExplained::Memory
    }
}

impl<T: Drop> From<AllocFailed<T>> for NotExplained {
    ghost from_gives = { λ _ why. why ≡ reasons.Memory };

    fn from(_error: AllocFailed<T>) -> NotExplained {
        NotExplained::Memory
    }
}

/// Why a run ends before its end.
#[derive(Drop)]
pub enum WhyStop {
    /// Nothing is explained.
    NotExplained(NotExplained),
    /// A file or a folder fails.
    File(FileStop),
    /// There is something where a folder of this path was to be made.
    Taken(String),
    /// Standard output takes nothing more.
    Output,
}

impl From<AllocError> for WhyStop {
    ghost from_gives = { λ _ stop. stop ≡ stops.NotExplained reasons.Memory };

    fn from(_error: AllocError) -> WhyStop {
        WhyStop::NotExplained(NotExplained::Memory)
    }
}

impl From<FileStop> for WhyStop {
    ghost from_gives = { λ file stop. stop ≡ stops.File file };

    fn from(stop: FileStop) -> WhyStop {
        WhyStop::File(stop)
    }
}

/// The line that is printed about it.
impl fmt::Display for WhyStop {
    ghost output = { λ stop. Some (stop_text stop) };

    fn fmt<W: fmt::Write>(&self, f: &mut fmt::Formatter<W>) -> fmt::Result {
        match self {
            WhyStop::NotExplained(NotExplained::Memory) | WhyStop::File(FileStop::Memory) =>
                f.write_str("fault 10: memory\n"),
            WhyStop::NotExplained(NotExplained::Refused(text)) => f.write_str(text.as_str()),
            WhyStop::File(FileStop::File { path, failure }) => write!(
                f,
                "file: {path}: {failure}\n"
            ),
            WhyStop::Taken(path) => write!(f, "file: {path}: there is one already\n"),
            WhyStop::Output => f.write_str("error: standard output takes nothing more\n"),
        }
    }
}

impl WhyStop {
    /// Prints what stopped the run, and returns its status. A failure to print changes no status.
    pub fn tell<O: Outside>(&self, outside: &mut O) -> u8
        ensures status { result ≡ status_of self.now }
        ensures told { (taken : Bool) × (O.log outside.new ≡ noted (Tell (stop_text self.now) taken) (O.log outside.old)) }
    {
        let _taken = outside.tell(self);
        self.status()
    }

    fn status(&self) -> u8
        ensures { result ≡ status_of self.now }
    {
        match self {
            WhyStop::NotExplained(NotExplained::Refused(_)) => REFUSED,
            _ => FAILED,
        }
    }
}
