//! The rows of loans.

ghost use Rattle.std.specs.Prelude.{◌≡◌, OnOk};
ghost use Rattle.record_tables.specs.Writing.{HasWidth, with_rows};
ghost use Rattle.record_tables.specs.Written.{listed_loans};

use crate::row_texts::day_text;
use circ_records::{KeyRef, Record, Records};
use csv_table::TableText;
use itoa::Buffer;
use sip_reader::Id;
use std::alloc::AllocError;

/// The loans of a patron, in the order of the patron's list.
pub(crate) fn write_loans(
    text: &mut TableText,
    records: &Records,
    patron: &[u8],
    items: &[Id],
) -> Result<(), AllocError>
    requires { HasWidth 4 text.old }
    ensures { OnOk result (text.new ≡ with_rows
        (listed_loans records.now patron.now items.now) text.old) }
{
    for item in items {
        if let Some(Record::Item(lent)) = records.get(KeyRef::Item(item)) {
            if let Some(loan) = &lent.get().loan {
                text.row(&[
                    patron,
                    item.as_bytes(),
                    day_text(loan.due).as_slice(),
                    Buffer::new().format(loan.renewals).as_bytes(),
                ])?;
            }
        }
    }
    Ok(())
}
