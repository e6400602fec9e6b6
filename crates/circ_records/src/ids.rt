ghost use Rattle.std.specs.Prelude.{◌≡◌, ◌++◌, ◌∷◌, [], IfOk, OnOk, OnErr, length, IsTrue, ◌↔◌};

use crate::shared::Shared;
use sip_reader::Id;
use std::alloc::{AllocError, Global};
use std::marker::Model;

/// The longest list that is copied exactly as large as it is when an id is added. Most lists have
/// no more ids, and a run stores each list that a line writes. A longer one grows in steps, in
/// place where no copy shares it.
const COPIED_EXACTLY: usize = 6;

/// A list of ids, such as a patron's loans or open fees, the oldest first. The empty list takes no
/// memory; any other list shares its memory with its copies.
pub struct Ids {
    held: Option<Shared<Vec<Id>>>,
}

impl Drop for Ids {
    fn drop(self) {
        let Ids { held: _ } = self;
    }
}

impl Model for Ids {
    ghost use Rattle.std.specs.Prelude.{ℕ, List, []};
    ghost use Rattle.std.specs.Option.{option_map_or};

    ghost Value = { List (List ℕ) };

    ghost view = { λ s. option_map_or (λ ids. ids.items) s.held [] };
}

impl Ids {
    /// Makes the empty list.
    pub fn new() -> Ids
        ensures { result ≡ [] }
    {
        Ids { held: None }
    }

    /// Makes the list of this one id.
    pub fn one(alloc: Global, id: Id) -> Result<Ids, AllocError>
        ensures { IfOk result (λ l. l ≡ id ∷ []) }
    {
        let mut ids = Ids::new();
        ids.push(alloc, id)?;
        Ok(ids)
    }

    /// Makes the list of exactly these ids, in their order.
    pub fn from_vec(alloc: Global, ids: Vec<Id>) -> Result<Ids, AllocError>
        ensures { IfOk result (λ l. l ≡ ids.items) }
    {
        let mut ids = ids;
        if ids.is_empty() {
            return Ok(Ids::new());
        }
        ids.shrink_to_fit();
        let held = Some(Shared::new(alloc, ids)?);
        Ok(Ids { held })
    }

    /// Puts one more id at the end. Out of memory, the list stays as it is.
    pub fn push(&mut self, alloc: Global, id: Id) -> Result<(), AllocError>
        ensures ok { OnOk result (self.new ≡ self.old ++ id ∷ []) }
        ensures err { OnErr result (self.new ≡ self.old) }
    {
        match &mut self.held {
            Some(ids) if ids.get().len() > COPIED_EXACTLY => ids.make_mut()?.push(id)?,
            _ => {
                let ids = self.as_slice();
                let mut longer = Vec::with_capacity(alloc, ids.len().saturating_add(1))?;
                for own in ids {
                    longer.push(own.clone()?)?;
                }
                longer.push(id)?;
                *self = Ids::from_vec(alloc, longer)?;
            }
        }
        Ok(())
    }

    /// Gives a list of the same ids in the same order, in the same memory.
    pub fn copy(&self) -> Result<Ids, AllocError>
        ensures { IfOk result (λ ids. ids ≡ self.now) }
    {
        let held = match &self.held {
            Some(ids) => Some(ids.copy()?),
            None => None,
        };
        Ok(Ids { held })
    }

    /// Gives how many ids there are.
    pub fn len(&self) -> usize
        ensures { result ≡ length self.now }
    {
        self.as_slice().len()
    }

    /// True exactly if there is no id.
    pub fn is_empty(&self) -> bool
        ensures { IsTrue result ↔ (self.now ≡ []) }
    {
        self.as_slice().is_empty()
    }

    /// Gives all ids in their order.
    pub fn as_slice(&self) -> &[Id]
        ensures { result.now ≡ self.now }
    {
        match &self.held {
            Some(ids) => ids.get().as_slice(),
            None => &[],
        }
    }
}
