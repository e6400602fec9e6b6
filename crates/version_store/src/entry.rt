use crate::table::Place;
use read_set::{Name, PlanName};
use std::alloc::AllocError;

/// What an attempt at a line placed at a key: its record is in the version at the place.
pub struct StoredEntry<'t, J: PlanName> {
    pub attempt: u32,
    /// Whether a check of the line has failed since it was placed.
    pub suspect: bool,
    pub place: Place<'t, J>,
}

impl<'t, J: PlanName> Clone for StoredEntry<'t, J> {
    ghost use Rattle.std.specs.Prelude.{◌≡◌, ⊤};

    ghost is_clone = { λ x y. y ≡ x };

    ghost is_infallible = { λ _. ⊤ };

    fn clone(&self) -> Result<StoredEntry<'t, J>, AllocError> {
        Ok(*self)
    }
}

impl<'t, J: PlanName> Copy for StoredEntry<'t, J> {}

/// The name under which a line sees a key.
#[derive(Clone, Copy, PartialEq, Eq)]
pub enum Found {
    Named(Name),
    /// The entry of this line, which is suspect and equals no name.
    Suspect { line: u64 },
}
