//! Further calls, for programs that create folders (directories).

ghost use Rattle.std.specs.Prelude.{◌≡◌};
ghost use Rattle.outside.specs.Events.{Exists, MakeFolder, RemoveFolder, noted};

use crate::failure::Failure;
use crate::outside::Outside;

/// Folders (directories). Each call is recorded in the same log, with its result if it has one.
pub trait Folders: Outside {
    /// Whether there is anything at this path.
    fn exists(&mut self, path: &str) -> Result<bool, Failure>
        ensures { Self.log self.new ≡ noted (Exists path.now result) (Self.log self.old) };

    /// Creates a folder.
    fn make_folder(&mut self, path: &str) -> Result<(), Failure>
        ensures { Self.log self.new ≡ noted (MakeFolder path.now result) (Self.log self.old) };

    /// Removes a folder with its contents. A failure is ignored.
    fn remove_folder(&mut self, path: &str)
        ensures { Self.log self.new ≡ noted (RemoveFolder path.now) (Self.log self.old) };
}
