//! The rows of fees.

ghost use Rattle.std.specs.Prelude.{◌≡◌, OnOk};
ghost use Rattle.record_tables.specs.Writing.{HasWidth, with_rows};
ghost use Rattle.record_tables.specs.Written as Written;

use crate::row_texts::amount_text;
use circ_records::{Fee, KeyRef, Record, Records};
use csv_table::TableText;
use sip_reader::Id;
use std::alloc::{AllocError, Global};

/// The open fees of a patron, in the order of the patron's list.
pub(crate) fn write_fees(
    alloc: Global,
    text: &mut TableText,
    records: &Records,
    patron: &[u8],
    fees: &[Id],
) -> Result<(), AllocError>
    requires { HasWidth 5 text.old }
    ensures { OnOk result (text.new ≡ with_rows
        (Written.listed_fees records.now patron.now fees.now) text.old) }
{
    for fee in fees {
        if let Some(Record::Fee(owed)) = records.get(KeyRef::Fee(fee)) {
            let owed = owed.get();
            if is_open(owed) {
                text.row(&[
                    fee.as_bytes(),
                    patron,
                    owed.kind.code().as_slice(),
                    amount_text(alloc, owed.amount)?.as_slice(),
                    amount_text(alloc, owed.paid)?.as_slice(),
                ])?;
            }
        }
    }
    Ok(())
}

/// Whether something is still to be paid.
pub(crate) fn is_open(fee: &Fee) -> bool
    ensures { result ≡ Written.is_open fee.now }
{
    fee.paid.hundredths() < fee.amount.hundredths()
}

/// A fee, where it is paid in full.
pub(crate) fn write_closed(
    alloc: Global,
    text: &mut TableText,
    id: &[u8],
    fee: &Fee,
) -> Result<(), AllocError>
    requires { HasWidth 4 text.old }
    ensures { OnOk result (text.new ≡ with_rows (Written.closed_alone id.now fee.now) text.old) }
{
    if is_open(fee) {
        return Ok(());
    }
    text.row(&[
        id,
        fee.patron.as_bytes(),
        fee.kind.code().as_slice(),
        amount_text(alloc, fee.amount)?.as_slice(),
    ])
}
