//! Which rows one side has more of than the other, where rows that say the same are one as good as
//! another.

ghost use Rattle.std.specs.Prelude.{◌≡◌, ◌+◌, ◌-◌, ◌<◌, ◌^◌, ◌∷◌, ◌++◌, ℕ, List, IfOk, OnOk, [], length, map, nat_lt, if◌then◌else◌};
ghost use Rattle.std.specs.Str.{bytes_eq};
ghost use Rattle.csv_table.specs.Text.{bytes_of};
ghost use Rattle.table_diff.specs.Rows.{copies, says, surplus};
ghost use Rattle.table_diff.specs.Devices.{count_in};

use crate::row::DiffRow;
use std::alloc::{AllocError, Global};
use std::collections::BTreeMap;

/// How many rows say a text.
type RowCounts = BTreeMap<Vec<u8>, usize>;

/// The rows of one side that the other has no copy of: each copy stands for one row.
pub(crate) fn rows_left_over<'a>(
    alloc: Global,
    columns: &[&str],
    rows: &[&'a DiffRow],
    others: &[&DiffRow],
) -> Result<Vec<&'a DiffRow>, AllocError>
    ensures { IfOk result (λ v. map (λ r. r.now) v.items
        ≡ surplus (bytes_of columns.now) (map (λ r. r.now) rows.now) (map (λ r. r.now) others.now)) }
{
    let mut counts = counts_of(alloc, columns, others)?;
    let mut found = Vec::new(alloc);
    for row in rows {
        push_left_over(alloc, &mut found, &mut counts, columns, *row)?;
    }
    Ok(found)
}

/// Adds a row unless there is one left that says the same, which is then removed from the counts.
fn push_left_over<'a>(
    alloc: Global,
    found: &mut Vec<&'a DiffRow>,
    counts: &mut RowCounts,
    columns: &[&str],
    row: &'a DiffRow,
) -> Result<(), AllocError>
    ensures found { OnOk result (map (λ r. r.now) found.new.items
        ≡ map (λ r. r.now) found.old.items ++ (if nat_lt 0 (count_in counts.old (says (bytes_of columns.now) row.now)) then [] else row.now ∷ [])) }
    ensures rest { OnOk result ((text : List ℕ) → count_in counts.new text
        ≡ (if bytes_eq (says (bytes_of columns.now) row.now) text then count_in counts.old text - 1 else count_in counts.old text)) }
{
    let text = row.says(alloc, columns)?;
    if !take_one(counts, text)? {
        found.push(row)?;
    }
    Ok(())
}

/// How many of the rows say each text.
fn counts_of(alloc: Global, columns: &[&str], rows: &[&DiffRow]) -> Result<RowCounts, AllocError>
    ensures { IfOk result (λ counts. (text : List ℕ)
        → count_in counts text ≡ copies (bytes_of columns.now) text (map (λ r. r.now) rows.now)) }
{
    number_fits(rows);
    let mut counts = BTreeMap::new(alloc);
    for row in rows {
        count_row(alloc, &mut counts, columns, row)?;
    }
    Ok(counts)
}

/// The rows are fewer than `usize` counts, as their number shows.
fn number_fits(rows: &[&DiffRow])
    ensures { length rows.now < 2 ^ 64 }
{
    let _count = rows.len();
}

/// Counts a row by what it says.
fn count_row(
    alloc: Global,
    counts: &mut RowCounts,
    columns: &[&str],
    row: &DiffRow,
) -> Result<(), AllocError>
    requires { count_in counts.old (says (bytes_of columns.now) row.now) + 1 < 2 ^ 64 }
    ensures { OnOk result ((text : List ℕ) → count_in counts.new text
        ≡ (if bytes_eq (says (bytes_of columns.now) row.now) text then count_in counts.old text + 1 else count_in counts.old text)) }
{
    let text = row.says(alloc, columns)?;
    add_one(counts, text)
}

/// Adds one to the count of a text.
fn add_one(counts: &mut RowCounts, text: Vec<u8>) -> Result<(), AllocError>
    requires { count_in counts.old text.items + 1 < 2 ^ 64 }
    ensures { OnOk result ((t : List ℕ) → count_in counts.new t
        ≡ (if bytes_eq text.items t then count_in counts.old t + 1 else count_in counts.old t)) }
{
    let count = counts.get(text.as_slice()).copied().unwrap_or(0);
    counts.insert(text, count + 1)?;
    Ok(())
}

/// Takes one off the count of a text, and says whether there was one.
fn take_one(counts: &mut RowCounts, text: Vec<u8>) -> Result<bool, AllocError>
    ensures taken { IfOk result (λ was. was ≡ nat_lt 0 (count_in counts.old text.items)) }
    ensures rest { IfOk result (λ _. (t : List ℕ) → count_in counts.new t
        ≡ (if bytes_eq text.items t then count_in counts.old t - 1 else count_in counts.old t)) }
{
    let count = counts.get(text.as_slice()).copied().unwrap_or(0);
    if count == 0 {
        return Ok(false);
    }
    counts.insert(text, count - 1)?;
    Ok(true)
}
