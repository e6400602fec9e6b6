//! What ends a run before its last line is printed, and the status of that.

ghost use Rattle.std.specs.Prelude.{◌≡◌, Bool, Some, option_map};
ghost use Rattle.outside.specs.Events.{Tell, noted};
ghost use Rattle.replay_run.specs.declared.fault.Fault.TheVariants as faults;
ghost use Rattle.run_stops.specs.Stops.{MayTell, MayTellFolder, TellsLoss};
ghost use Rattle.run_stops.specs.Statuses.{status_of};
ghost use Rattle.run_stops.specs.Telling.{line_of, loss_of, stop_text};
ghost use Rattle.run_stops.specs.declared.stop.RunError.TheVariants as stops;

use crate::remedy::StopText;
use crate::seen::FaultDetail;
use command_line::Options;
use outside::{Failure, Outside};
use replay_run::Fault;
use std::alloc::{AllocError, Global};
use std::fmt;

/// The status of a command line, a policy, a table or a journal that is refused.
pub const REFUSED: u8 = 2;

/// The status of a run that a file, lack of memory or a counter at its greatest number stopped.
pub const FAILED: u8 = 3;

/// The last fault that names something in the inputs.
const LAST_REFUSAL: u8 = 7;

/// An input, by the option that names it.
#[derive(Clone, Copy)]
pub enum InputName {
    Policy,
    Base,
    Journal,
}

/// Which files of the output would replace it.
impl fmt::Display for InputName {
    ghost output = { λ input. Some (loss_of input) };

    fn fmt<W: fmt::Write>(&self, f: &mut fmt::Formatter<W>) -> fmt::Result {
        match self {
            InputName::Policy => f.write_str("files would replace that of --policy"),
            InputName::Base => f.write_str("tables would replace those of --base"),
            InputName::Journal => f.write_str("files would replace that of --journal"),
        }
    }
}

/// Why a run ends before its last line is printed.
#[derive(Drop)]
pub enum RunError {
    /// The replay returned a fault.
    Fault(Fault),
    /// The same, and what is seen in the text that this fault is about.
    Seen { fault: Fault, seen: FaultDetail },
    /// A file of the folder for the output is one that is read.
    Replaces { out: String, input: InputName },
    /// The file of this path can't be read or written.
    File { path: String, failure: Failure },
    /// The file of this path can't be read or written, since its folder isn't there.
    NoFolder { path: String, folder: String },
    /// Standard output takes nothing more.
    Output,
}

/// The line that is printed for a stop; none where standard output fails.
impl fmt::Display for RunError {
    ghost output = { λ stop. Some (line_of stop) };

    fn fmt<W: fmt::Write>(&self, f: &mut fmt::Formatter<W>) -> fmt::Result {
        match self {
            RunError::Fault(fault) => write!(f, "fault {}: {fault}\n", fault.number()),
            RunError::Seen { fault, .. } => write!(f, "fault {}: {fault}\n", fault.number()),
            RunError::Replaces { out, input } => write!(
                f,
                "error: invalid value '{out}' for '--out <DIR>': its {input}\n\nFor more information, try '--help'.\n"
            ),
            RunError::File { path, .. } => write!(f, "file: {path}\n"),
            RunError::NoFolder { path, .. } => write!(f, "file: {path}\n"),
            RunError::Output => f.write_str(""),
        }
    }
}

impl From<AllocError> for RunError {
    ghost from_gives = { λ _ stop. stop ≡ stops.Fault faults.Memory };

    fn from(_error: AllocError) -> RunError {
        RunError::Fault(Fault::Memory)
    }
}

impl RunError {
    /// Gives the stop of a file that failed: its path and its failure, or memory alone if that ran
    /// out.
    pub fn of_file(alloc: Global, failure: Failure, path: &str) -> RunError
        ensures { MayTell path.now failure result }
    {
        if let Failure::Memory = failure {
            return RunError::Fault(Fault::Memory);
        }
        match String::from_str(alloc, path) {
            Ok(path) => RunError::File { path, failure },
            Err(error) => RunError::from(error),
        }
    }

    /// Gives the stop of a file whose folder isn't there: both paths, or memory alone if that ran
    /// out.
    pub fn of_folder(alloc: Global, folder: &str, path: &str) -> RunError
        ensures { MayTellFolder folder.now path.now result }
    {
        match (
            String::from_str(alloc, folder),
            String::from_str(alloc, path),
        ) {
            (Ok(folder), Ok(path)) => RunError::NoFolder { path, folder },
            _ => RunError::Fault(Fault::Memory),
        }
    }

    /// Gives the stop of a run whose output would replace this input.
    pub fn of_loss(alloc: Global, options: &Options, input: InputName) -> RunError
        ensures { TellsLoss options.now input result }
    {
        match String::from_str(alloc, options.out.as_str()) {
            Ok(out) => RunError::Replaces { out, input },
            Err(error) => RunError::from(error),
        }
    }

    /// Prints once what stopped the run, and returns its status, which a failure to print doesn't
    /// change. If what was asked for is given, what to do is printed too.
    pub fn say_why<O: Outside>(&self, asked: Option<&Options>, outside: &mut O) -> u8
        ensures status { result ≡ status_of self.now }
        ensures told { (taken : Bool)
            × (O.log outside.new ≡ noted
            (Tell (stop_text self.now (option_map (λ o. o.now) asked.entry)) taken)
            (O.log outside.old)) }
    {
        let _taken = outside.tell(&StopText { stop: self, asked });
        self.status()
    }

    fn status(&self) -> u8
        ensures { result ≡ status_of self.now }
    {
        match self {
            RunError::Fault(fault) if fault.number() <= LAST_REFUSAL => REFUSED,
            RunError::Seen { .. } => REFUSED,
            RunError::Replaces { .. } => REFUSED,
            _ => FAILED,
        }
    }
}
