ghost use Rattle.std.specs.Prelude.{◌≡◌, ◌++◌, ◌∷◌, [], OnOk, OnErr};

use sip_reader::Id;
use std::alloc::{AllocError, Global};
use std::marker::Model;

/// The ids of items, in order.
pub struct ItemIds {
    ids: Vec<Id>,
}

impl Drop for ItemIds {
    fn drop(self) {
        let ItemIds { ids: _ } = self;
    }
}

impl Model for ItemIds {
    ghost use Rattle.std.specs.Prelude.{ℕ, List};

    ghost Value = { List (List ℕ) };

    ghost view = { λ i. i.ids.items };
}

impl ItemIds {
    /// Makes the list of no ids.
    pub fn new(alloc: Global) -> ItemIds
        ensures { result ≡ [] }
    {
        ItemIds {
            ids: Vec::new(alloc),
        }
    }

    /// Puts one more id at the end. Out of memory, nothing changes.
    pub fn push(&mut self, id: Id) -> Result<(), AllocError>
        ensures ok { OnOk result (self.new ≡ self.old ++ id ∷ []) }
        ensures err { OnErr result (self.new ≡ self.old) }
    {
        self.ids.push(id)?;
        Ok(())
    }

    /// Gives all ids in the order in which they were put in.
    pub fn as_slice(&self) -> &[Id]
        ensures { result.now ≡ self.now }
    {
        self.ids.as_slice()
    }
}
