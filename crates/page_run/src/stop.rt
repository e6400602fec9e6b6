//! What ends a run before its page is printed, and the status of that.

ghost use Rattle.std.specs.Prelude.{◌≡◌, Bool, Some};
ghost use Rattle.outside.specs.Events.{Tell, noted};
ghost use Rattle.page_run.specs.Stops.{status_of, stop_text};
ghost use Rattle.page_run.specs.declared.stop.PageStop.TheVariants as stops;

use outside::{FileStop, Outside};
use std::fmt;

/// The status of a command line or a table that is refused.
pub const REFUSED: u8 = 2;

/// The status of a run that a file, standard output or lack of memory stopped.
pub const FAILED: u8 = 3;

/// Why no page can be made of what was read.
#[derive(Drop)]
pub enum NoPage {
    /// Memory ran out.
    Memory,
    /// What was read is refused: the line that is printed about it, with its line end.
    Refused(String),
}

/// Why a run ends before its page is printed.
#[derive(Drop)]
pub enum PageStop {
    /// No page is made.
    NoPage(NoPage),
    /// A file can't be read.
    File(FileStop),
    /// Standard output takes nothing more.
    Output,
}

impl From<FileStop> for PageStop {
    ghost from_gives = { λ file stop. stop ≡ stops.File file };

    fn from(stop: FileStop) -> PageStop {
        PageStop::File(stop)
    }
}

/// The line that is printed about it.
impl fmt::Display for PageStop {
    ghost output = { λ stop. Some (stop_text stop) };

    fn fmt<W: fmt::Write>(&self, f: &mut fmt::Formatter<W>) -> fmt::Result {
        match self {
            PageStop::NoPage(NoPage::Memory) | PageStop::File(FileStop::Memory) => {
                f.write_str("error: out of memory\n")
            }
            PageStop::NoPage(NoPage::Refused(text)) => f.write_str(text.as_str()),
            PageStop::File(FileStop::File { path, failure }) => write!(
                f,
                "file: {path}: {failure}\n"
            ),
            PageStop::Output => f.write_str("error: standard output takes nothing more\n"),
        }
    }
}

impl PageStop {
    /// Prints once what stopped the run, and returns its status, which a failure to print doesn't
    /// change.
    pub fn say_why<O: Outside>(&self, outside: &mut O) -> u8
        ensures status { result ≡ status_of self.now }
        ensures told { (taken : Bool)
            × (O.log outside.new ≡ noted (Tell (stop_text self.now) taken) (O.log outside.old)) }
    {
        let _taken = outside.tell(self);
        self.status()
    }

    fn status(&self) -> u8
        ensures { result ≡ status_of self.now }
    {
        match self {
            PageStop::NoPage(NoPage::Refused(_)) => REFUSED,
            _ => FAILED,
        }
    }
}
