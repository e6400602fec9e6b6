//! The rows of queues.

ghost use Rattle.std.specs.Prelude.{◌≡◌, OnOk};
ghost use Rattle.record_tables.specs.Writing.{HasWidth, with_rows};
ghost use Rattle.record_tables.specs.Written.{queued};

use circ_records::Hold;
use csv_table::TableText;
use std::alloc::AllocError;

/// The queue of an item, in its order.
pub(crate) fn write_holds(
    text: &mut TableText,
    item: &[u8],
    holds: &[Hold],
) -> Result<(), AllocError>
    requires { HasWidth 3 text.old }
    ensures { OnOk result (text.new ≡ with_rows (queued item.now holds.now) text.old) }
{
    for hold in holds {
        text.row(&[item, hold.patron.as_bytes(), hold.pickup.as_bytes()])?;
    }
    Ok(())
}
