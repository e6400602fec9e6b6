//! What differs between rows of one name.

ghost use Rattle.std.specs.Prelude.{◌≡◌, IfSome, OnOk, option_map};
ghost use Rattle.std.specs.List.{flat_map};
ghost use Rattle.csv_table.specs.Text.{bytes_of};
ghost use Rattle.table_diff.specs.Differences.{change_at, changes, changes_to, changes_where, with_rows};

use crate::names::ColumnNames;
use crate::row::{DiffRow, TableForm};
use csv_table::TableText;
use std::alloc::AllocError;

/// Writes each column in which a row of the left and the right's row of the same name differ.
pub(crate) fn add_changes(
    out: &mut TableText,
    form: &TableForm<'_>,
    left: &[DiffRow],
    right: &ColumnNames<'_>,
) -> Result<(), AllocError>
    requires { IfSome out.old (λ t. t.width ≡ 5) }
    ensures { OnOk result (out.new ≡ option_map
        (with_rows (flat_map (changes_to form.now.table.now
        (bytes_of form.now.columns.now) right.now) left.now)) out.old) }
{
    for row in left {
        add_changes_of(out, form, row, right.find(row.name()))?;
    }
    Ok(())
}

/// Writes each column in which a row and the other side's row of its name, where it has one,
/// differ.
fn add_changes_of(
    out: &mut TableText,
    form: &TableForm<'_>,
    left: &DiffRow,
    right: Option<&DiffRow>,
) -> Result<(), AllocError>
    requires { IfSome out.old (λ t. t.width ≡ 5) }
    ensures { OnOk result (out.new ≡ option_map
        (with_rows (changes_where form.now.table.now (bytes_of form.now.columns.now) left.now
        (option_map (λ r. r.now) right.entry))) out.old) }
{
    match right {
        Some(right) => add_changes_between(out, form, left, right),
        None => Ok(()),
    }
}

/// Writes each column in which two rows of one name differ.
fn add_changes_between(
    out: &mut TableText,
    form: &TableForm<'_>,
    left: &DiffRow,
    right: &DiffRow,
) -> Result<(), AllocError>
    requires { IfSome out.old (λ t. t.width ≡ 5) }
    ensures { OnOk result (out.new ≡ option_map
        (with_rows (changes form.now.table.now
        (bytes_of form.now.columns.now) left.now right.now)) out.old) }
{
    for (place, column) in form.columns.iter().enumerate() {
        add_change(out, form.table, column, place, left, right)?;
    }
    Ok(())
}

/// Writes a column where two rows of one name differ in it.
fn add_change(
    out: &mut TableText,
    table: &str,
    column: &str,
    place: usize,
    left: &DiffRow,
    right: &DiffRow,
) -> Result<(), AllocError>
    requires { IfSome out.old (λ t. t.width ≡ 5) }
    ensures { OnOk result (out.new ≡ option_map
        (with_rows (change_at table.now left.now right.now place column.now)) out.old) }
{
    let (before, after) = (left.value(place), right.value(place));
    if before == after {
        return Ok(());
    }
    out.row(&[
        table.as_bytes(),
        left.name(),
        column.as_bytes(),
        before,
        after,
    ])
}
