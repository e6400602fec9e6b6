//! The ids that rows have in a column.

ghost use Rattle.std.specs.Prelude.{◌≡◌, ◌++◌, ◌∷◌, [], ℕ, List, OnOk};
ghost use Rattle.record_tables.specs.RowsBefore.{HasIds};
ghost use Rattle.record_tables.specs.Rules.{has_row};
ghost use Rattle.record_tables.specs.Tables.{Row, field};

use sip_reader::Id;
use std::alloc::{AllocError, Global};
use std::collections::BTreeSet;

/// Whether a row has this id.
pub(crate) fn has_id(ids: &BTreeSet<Id>, id: &Id) -> bool
    ensures { (column : ℕ) (rows : List Row) → HasIds column rows ids.now
        → result ≡ has_row column id.now rows }
{
    id.keeps_its_form();
    ids.contains(id)
}

/// Adds what one more row has in a column to the ids of the rows before it. A text that is no id is
/// passed over: a row that has it breaks the rule `text`, and no other row finds it.
pub(crate) fn add_id(alloc: Global, ids: &mut BTreeSet<Id>, text: &[u8]) -> Result<(), AllocError>
    ensures { OnOk result ((column : ℕ) (before : List Row) (row : Row)
        → text.now ≡ field column row → HasIds column before ids.old
        → HasIds column (before ++ row ∷ []) ids.new) }
{
    if let Some(id) = Id::read(alloc, text)? {
        ids.insert(id)?;
    }
    Ok(())
}
