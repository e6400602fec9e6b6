//! The versions that were made.

ghost use Rattle.std.specs.Prelude.{◌≡◌, IfOk, IfErr};

use read_set::{PlanName, Version};
use std::alloc::{AllocError, Global};
use std::sync::Wait;

/// There is a shelf for each 57,000 lines. A shelf doubles its capacity when seven eighths of it
/// are used, and writes to all of the new memory: this many lines, and a few that are run again,
/// stay below such a mark.
const LINES_A_SHELF: usize = 57_000;

/// The versions that were made. None is changed, and none is dropped before the table is. Each is
/// in a box, since a shelf allocates more memory than it needs: so its elements have to be small.
pub struct VersionTable<J: PlanName> {
    shelves: Vec<LineVersions<J>>,
    alloc: Global,
}

/// Some of the versions.
type LineVersions<J> = boxcar::Vec<Box<Version<J>>>;

impl<J: PlanName> Drop for VersionTable<J> {
    fn drop(self) {
        let VersionTable {
            shelves: _,
            alloc: _,
        } = self;
    }
}

/// A version in the table.
pub struct Place<'t, J: PlanName> {
    version: &'t Version<J>,
}

impl<'t, J: PlanName> Clone for Place<'t, J> {
    ghost use Rattle.std.specs.Prelude.{◌≡◌, ⊤};

    ghost is_clone = { λ x y. y ≡ x };

    ghost is_infallible = { λ _. ⊤ };

    fn clone(&self) -> Result<Place<'t, J>, AllocError> {
        Ok(*self)
    }
}

impl<'t, J: PlanName> Copy for Place<'t, J> {}

impl<J: PlanName> VersionTable<J> {
    /// Makes a table with no version, for the versions of a few lines. With more lines it only
    /// takes more memory than they need.
    pub fn new(alloc: Global) -> Result<VersionTable<J>, AllocError> {
        VersionTable::for_lines(alloc, 1)
    }

    /// Makes a table with no version, for the versions of this many lines.
    pub fn for_lines(alloc: Global, lines: usize) -> Result<VersionTable<J>, AllocError> {
        let count = lines / LINES_A_SHELF + 1;
        let mut shelves = Vec::with_capacity(alloc, count)?;
        for _i in 0..count {
            shelves.push(LineVersions::new(alloc)?)?;
        }
        Ok(VersionTable { shelves, alloc })
    }

    /// Keeps a version at a place of the table, for as long as the table is there. Out of memory,
    /// the version is returned.
    pub fn put<'t, R: Wait>(
        &'t self,
        rt: &R,
        version: Version<J>,
    ) -> Result<Place<'t, J>, Version<J>>
        ensures put { IfOk result (λ p. p.version.now ≡ version) }
        ensures back { IfErr result (λ v. v ≡ version) }
    {
        // one line after the other gets the next shelf
        let count = self.shelves.len() as u64;
        if count == 0 {
            return Err(version);
        }
        let Some(shelf) = self.shelves.get((version.line() % count) as usize) else {
            return Err(version);
        };
        let boxed = match Box::new(self.alloc, version) {
            Ok(boxed) => boxed,
            Err(refused) => return Err(refused.value),
        };
        match shelf.push_shown(rt, boxed) {
            Ok(pushed) => Ok(Place {
                version: shelf.value(&pushed).as_ref(),
            }),
            Err(boxed) => Err(Box::into_inner(boxed)),
        }
    }
}

impl<'t, J: PlanName> Place<'t, J> {
    /// Gives the version that was put at the place.
    pub fn show(self) -> &'t Version<J>
        ensures { result.now ≡ self.entry.version.now }
    {
        self.version
    }
}
