//! Input and output of a program, as a trait.

ghost use Rattle.std.specs.Prelude.{◌≡◌, IfSome, List, Option};
ghost use Rattle.outside.specs.Events.{Event, Create, Find, Print, Read, Remove, Rename, Tell, answer_of, noted};

use crate::failure::Failure;
use crate::file_id::FileId;
use std::alloc::Global;
use std::fmt::Display;

/// Files, and standard input, output and error. Each call but `is_terminal` is recorded in a ghost
/// log, with its result if it has one.
pub trait Outside {
    /// The calls so far with their results; None if this isn't known.
    ghost log: { Self → Option (List Event) };

    /// The file that this path leads to, with links followed; for the path `-` that of standard
    /// input. None if there is none, or if it can't be looked up.
    fn find(&mut self, path: &str) -> Option<FileId>
        ensures { log self.new ≡ noted (Find path.now result) (log self.old) };

    /// Reads all bytes of the file at this path; for the path `-` those of standard input.
    fn read(&mut self, alloc: Global, path: &str) -> Result<Vec<u8>, Failure>
        ensures { log self.new ≡ noted (Read path.now (answer_of result)) (log self.old) };

    /// Creates a file with these bytes, or replaces the contents of the file at this path.
    fn create(&mut self, path: &str, text: &[u8]) -> Result<(), Failure>
        ensures { log self.new ≡ noted (Create path.now text.now result) (log self.old) };

    /// Moves a file to another path, and replaces the file there, if there is one.
    fn rename(&mut self, from: &str, to: &str) -> Result<(), Failure>
        ensures { log self.new ≡ noted (Rename from.now to.now result) (log self.old) };

    /// Removes a file. A failure is ignored.
    fn remove(&mut self, path: &str)
        ensures { log self.new ≡ noted (Remove path.now) (log self.old) };

    /// Prints a text to standard output. Returns whether all of it was written. The contract says
    /// nothing if it isn't known what that text is.
    fn print<D: Display>(&mut self, text: &D) -> bool
        ensures { IfSome (D.output text.now) (λ text. log self.new ≡ noted (Print text result) (log self.old)) };

    /// Writes bytes to standard output, which is recorded as printing. Returns whether all of them
    /// were written.
    fn write(&mut self, bytes: &[u8]) -> bool
        ensures { log self.new ≡ noted (Print bytes.now result) (log self.old) };

    /// Prints a text to standard error. Returns whether all of it was written.
    fn tell<D: Display>(&mut self, text: &D) -> bool
        ensures { IfSome (D.output text.now) (λ text. log self.new ≡ noted (Tell text result) (log self.old)) };

    /// Whether standard error is a terminal.
    fn is_terminal(&self) -> bool;
}
