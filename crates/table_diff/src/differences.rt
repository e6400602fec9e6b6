//! All that differs in a table.

ghost use Rattle.std.specs.Prelude.{◌≡◌, ◌⊎◌, [], Some, IfErr, IfOk, IfSome, OnOk, map, option_map};
ghost use Rattle.csv_table.specs.Text.{bytes_of, text_of, with_row, written};
ghost use Rattle.table_diff.specs.Rows.{HasDouble};
ghost use Rattle.table_diff.specs.declared.names.DiffFault.TheVariants as faults;
ghost use Rattle.table_diff.specs.Differences.{differences, header, lacking, one_sided, only_in, with_rows};

use crate::changes::add_changes;
use crate::names::{ColumnNames, DiffFault, rows_alone};
use crate::row::{DiffRow, TableForm};
use crate::surplus::rows_left_over;
use csv_table::TableText;
use std::alloc::{AllocError, Global};
use std::marker::Model;

/// The columns of what is written.
const HEADER: [&str; 5] = ["table", "id", "column", "left", "right"];

/// What is written in place of a column where only one side has the row.
const WHOLE_ROW: &[u8] = b"(row)";

/// What the side that lacks the row says.
const NOTHING: &[u8] = b"";

/// One of the two sides.
#[derive(Clone, Copy)]
pub enum TableSide {
    Left,
    Right,
}

/// What differs between two sides, table by table, written as a table of its own.
pub struct Report {
    out: TableText,
}

impl Drop for Report {
    fn drop(self) {
        let Report { out: _ } = self;
    }
}

impl Model for Report {
    ghost use Rattle.std.specs.Prelude.{Option, IfSome, ◌≡◌};
    ghost use Rattle.csv_table.specs.Text.{Written};

    ghost Value = { Option Written };

    ghost view = { λ r. r.out };

    ghost invariant = { λ r. IfSome r.out (λ t. t.width ≡ 5) };
}

impl Report {
    /// Begins a report before the first table: its header alone.
    pub fn new(alloc: Global) -> Result<Report, AllocError>
        ensures { IfOk result (λ r. r ≡ Some (written header [])) }
    {
        Ok(Report {
            out: TableText::under(alloc, &HEADER)?,
        })
    }

    /// Gives the report with all that differs between two sides of a table at its end, and nothing
    /// that is the same.
    pub fn with(
        self,
        alloc: Global,
        form: &TableForm<'_>,
        left: &[DiffRow],
        right: &[DiffRow],
    ) -> Result<Report, DiffFault>
        ensures double { IfErr result
            (λ e. e ≡ faults.Double → HasDouble left.now ⊎ HasDouble right.now) }
        ensures ok { IfOk result (λ r. r ≡ option_map
            (with_rows (differences form.now.table.now
            (bytes_of form.now.columns.now) form.now.renamed left.now right.now)) self) }
    {
        let Report { mut out } = self;
        match add_differences(alloc, &mut out, form, left, right) {
            Ok(()) => Ok(Report { out }),
            Err(fault) => Err(fault),
        }
    }

    /// Gives the text of all that was reported.
    pub fn finish(self) -> Result<Vec<u8>, AllocError>
        ensures { IfOk result (λ v. option_map text_of self ≡ Some v.items) }
    {
        let Report { out } = self;
        out.finish()
    }
}

/// Writes all that differs between two sides of a table: first each column in which two rows of one
/// name differ, in the order of the left rows, then each row that only the left has, then each that
/// only the right has.
fn add_differences(
    alloc: Global,
    out: &mut TableText,
    form: &TableForm<'_>,
    left: &[DiffRow],
    right: &[DiffRow],
) -> Result<(), DiffFault>
    requires { IfSome out.old (λ t. t.width ≡ 5) }
    ensures ok { OnOk result (out.new ≡ option_map
        (with_rows (differences form.now.table.now
        (bytes_of form.now.columns.now) form.now.renamed left.now right.now)) out.old) }
    ensures double { IfErr result
        (λ e. e ≡ faults.Double → HasDouble left.now ⊎ HasDouble right.now) }
{
    let left_names = match ColumnNames::of(alloc, left) {
        Ok(names) => names,
        Err(fault) => return Err(fault),
    };
    let right_names = match ColumnNames::of(alloc, right) {
        Ok(names) => names,
        Err(fault) => return Err(fault),
    };
    add_changes(out, form, left, &right_names)?;
    add_side(alloc, out, form, TableSide::Left, &left_names, &right_names)?;
    add_side(
        alloc,
        out,
        form,
        TableSide::Right,
        &right_names,
        &left_names,
    )?;
    Ok(())
}

/// Writes the rows of one side that the other lacks.
fn add_side(
    alloc: Global,
    out: &mut TableText,
    form: &TableForm<'_>,
    side: TableSide,
    rows: &ColumnNames<'_>,
    others: &ColumnNames<'_>,
) -> Result<(), AllocError>
    requires { IfSome out.old (λ t. t.width ≡ 5) }
    ensures { OnOk result (out.new ≡ option_map
        (with_rows (map (only_in side form.now.table.now (bytes_of form.now.columns.now))
        (lacking (bytes_of form.now.columns.now) form.now.renamed rows.now others.now))) out.old) }
{
    let lacking = rows_lacking(alloc, form, rows, others)?;
    add_rows(alloc, out, form, side, lacking.as_slice())
}

/// The rows of one side that the other lacks.
fn rows_lacking<'a>(
    alloc: Global,
    form: &TableForm<'_>,
    rows: &ColumnNames<'a>,
    others: &ColumnNames<'_>,
) -> Result<Vec<&'a DiffRow>, AllocError>
    ensures { IfOk result (λ v. map (λ r. r.now) v.items
        ≡ lacking (bytes_of form.now.columns.now) form.now.renamed rows.now others.now) }
{
    let alone = rows_alone(alloc, rows.rows(), others)?;
    if !form.renamed {
        return Ok(alone);
    }
    let others_alone = rows_alone(alloc, others.rows(), rows)?;
    rows_left_over(
        alloc,
        form.columns,
        alone.as_slice(),
        others_alone.as_slice(),
    )
}

/// Writes rows that only one side has.
fn add_rows(
    alloc: Global,
    out: &mut TableText,
    form: &TableForm<'_>,
    side: TableSide,
    rows: &[&DiffRow],
) -> Result<(), AllocError>
    requires { IfSome out.old (λ t. t.width ≡ 5) }
    ensures { OnOk result (out.new ≡ option_map
        (with_rows (map (only_in side form.now.table.now (bytes_of form.now.columns.now))
        (map (λ r. r.now) rows.now))) out.old) }
{
    for row in rows {
        add_row(alloc, out, form, side, row)?;
    }
    Ok(())
}

/// Writes a row that only one side has.
fn add_row(
    alloc: Global,
    out: &mut TableText,
    form: &TableForm<'_>,
    side: TableSide,
    row: &DiffRow,
) -> Result<(), AllocError>
    requires { IfSome out.old (λ t. t.width ≡ 5) }
    ensures { OnOk result (out.new ≡ option_map
        (with_row (only_in side form.now.table.now
        (bytes_of form.now.columns.now) row.now)) out.old) }
{
    let text = row.says(alloc, form.columns)?;
    add_one_sided(out, form.table, side, row.name(), text.as_slice())
}

/// Writes what only one side has: a name, and what that side says.
fn add_one_sided(
    out: &mut TableText,
    table: &str,
    side: TableSide,
    name: &[u8],
    text: &[u8],
) -> Result<(), AllocError>
    requires { IfSome out.old (λ t. t.width ≡ 5) }
    ensures { OnOk result (out.new ≡ option_map
        (with_row (one_sided side table.now name.now text.now)) out.old) }
{
    match side {
        TableSide::Left => out.row(&[table.as_bytes(), name, WHOLE_ROW, text, NOTHING]),
        TableSide::Right => out.row(&[table.as_bytes(), name, WHOLE_ROW, NOTHING, text]),
    }
}
