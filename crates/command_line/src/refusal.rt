//! Why words give no options.
ghost use Rattle.std.specs.Prelude.{◌≡◌};
ghost use Rattle.command_line.specs.Refusals.{IsOfKind, is_request};
ghost use Rattle.clap.specs.Words.{kind_of};
ghost use Rattle.clap.specs.declared.error.kind.ErrorKind.TheVariants.{OutOfMemory};
ghost use Rattle.command_line.specs.declared.refusal.Refusal.TheVariants as refusals;

use clap::Error;
use clap::error::ErrorKind;
use std::alloc::{AllocError, Global};

/// Why words give no options.
#[derive(Drop)]
pub enum Refusal {
    /// They ask for help or for the version: its text.
    Help(String),
    /// They are refused: the text that is printed.
    Words(String),
    /// Memory ran out.
    Memory,
}

impl From<AllocError> for Refusal {
    ghost from_gives = { λ e r. r ≡ refusals.Memory };

    fn from(_error: AllocError) -> Refusal {
        Refusal::Memory
    }
}

impl Refusal {
    /// The refusal that is in clap's error.
    pub(crate) fn of_error(alloc: Global, error: &Error) -> Refusal
        ensures memory { kind_of error.now ≡ OutOfMemory → result ≡ refusals.Memory }
        ensures kind { IsOfKind (kind_of error.now) result }
    {
        if error.kind() == ErrorKind::OutOfMemory {
            return Refusal::Memory;
        }
        let Ok(text) = format!(in alloc; "{error}") else {
            return Refusal::Memory;
        };
        if is_request(error.kind()) {
            Refusal::Help(text)
        } else {
            Refusal::Words(text)
        }
    }
}

/// Whether words for which clap gives this kind ask for help or for the version.
fn is_request(kind: ErrorKind) -> bool
    ensures { result ≡ is_request kind }
{
    match kind {
        ErrorKind::DisplayHelp | ErrorKind::DisplayVersion => true,
        _ => false,
    }
}
