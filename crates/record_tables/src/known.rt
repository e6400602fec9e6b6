//! What the records so far have.

ghost use Rattle.std.specs.Prelude.{◌≡◌, is_some};
ghost use Rattle.circ_records.specs.Records.{record_at};
ghost use Rattle.circ_records.specs.declared.key.Key.TheVariants as key;

use circ_records::{KeyRef, RecordMap};
use sip_reader::Id;

/// Whether there is a patron with this id.
pub(crate) fn has_patron(records: &RecordMap, id: &Id) -> bool
    ensures { result ≡ is_some (record_at records.now (key.Patron id.now)) }
{
    records.get(KeyRef::Patron(id)).is_some()
}
