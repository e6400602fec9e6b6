ghost use Rattle.std.specs.Prelude.{Option};
ghost use Rattle.circ_records.specs.declared.key.Key.{Key};
ghost use Rattle.circ_records.specs.declared.record.Record.{Record};
ghost use Rattle.read_set.specs.Asks.{follow, Ask, Give, Gains};
ghost use Rattle.read_set.specs.Stops.{Follows};

use circ_records::{Key, Record};
use std::alloc::{AllocError, Global};

/// Why the meaning of a line stopped before its end.
#[derive(Drop)]
pub enum Stop {
    /// The source doesn't know which record, if any, is at this key.
    Unnoted(Key),
    /// Out of memory.
    Memory,
}

impl From<AllocError> for Stop {
    ghost use Rattle.std.specs.Prelude.{◌≡◌};
    ghost use Rattle.read_set.specs.declared.source.Stop.TheVariants.{Memory};

    ghost from_gives = { λ _ e. e ≡ Memory };

    fn from(_e: AllocError) -> Stop {
        Stop::Memory
    }
}

/// Where the code of a rule gets the records that it asks for. A source never loses what it has. It may fetch more than it is asked
/// for: one that fetches a page of records at once, for example.
pub trait Source {
    /// What the source knows at each key: nothing, the record there, or that there is none.
    ghost has: { Self → Key → Option (Option Record) };

    /// A claim that is true if the source fetches nothing but what it is asked for.
    ghost one_by_one: { Type 0 };

    /// The record at a key, or None where there is none; a stop where the source doesn't know.
    fn read(&mut self, alloc: Global, key: &Key) -> Result<Option<Record>, Stop>
        ensures gives { Follows result (follow (has self.new) (Ask key.now Give)) }
        ensures keeps { Gains one_by_one (has self.old) (has self.new) (Ask key.now Give) };
}
