//! The rows of a side by their names.

ghost use Rattle.std.specs.Prelude.{◌≡◌, ◌∷◌, ◌++◌, [], ℕ, List, IfErr, IfOk, OnOk, None, Some, true, is_none, is_some, map, option_map, if◌then◌else◌};
ghost use Rattle.std.specs.Str.{bytes_eq};
ghost use Rattle.table_diff.specs.Devices.{in_map};
ghost use Rattle.table_diff.specs.Rows.{HasDouble, alone, named};
ghost use Rattle.table_diff.specs.declared.names.DiffFault.TheVariants as faults;

use crate::row::DiffRow;
use std::alloc::{AllocError, AllocFailed, Global};
use std::collections::BTreeMap;
use std::marker::Model;

/// Why two sides aren't compared.
#[derive(Clone, Copy, Debug, PartialEq, Eq)]
pub enum DiffFault {
    /// Memory ran out.
    Memory,
    /// A row has the name of one before it.
    Double,
}

impl From<AllocError> for DiffFault {
    ghost from_gives = { λ e r. r ≡ faults.Memory };

    fn from(_error: AllocError) -> DiffFault {
        DiffFault::Memory
    }
}

impl<T: Drop> From<AllocFailed<T>> for DiffFault {
    ghost from_gives = { λ e r. r ≡ faults.Memory };

    fn from(_error: AllocFailed<T>) -> DiffFault {
        DiffFault::Memory
    }
}

/// The rows of a side, each of which has a name of its own, and by their names.
pub(crate) struct ColumnNames<'a> {
    rows: &'a [DiffRow],
    by_name: BTreeMap<Vec<u8>, &'a DiffRow>,
}

impl Drop for ColumnNames<'_> {
    fn drop(self) {
        let ColumnNames {
            rows: _,
            by_name: _,
        } = self;
    }
}

impl<'a> Model for ColumnNames<'a> {
    ghost use Rattle.std.specs.Prelude.{List};
    ghost use Rattle.table_diff.specs.Rows.{RowTexts};

    ghost Value = { List RowTexts };

    ghost use Rattle.table_diff.specs.Devices.{IsByName};

    ghost view = { λ n. n.rows.now };

    ghost invariant = { IsByName };
}

impl<'a> ColumnNames<'a> {
    /// The rows by their names.
    pub(crate) fn of(alloc: Global, rows: &'a [DiffRow]) -> Result<ColumnNames<'a>, DiffFault>
        ensures ok { IfOk result (λ names. names ≡ rows.now) }
        ensures double { IfErr result (λ e. e ≡ faults.Double → HasDouble rows.now) }
    {
        let mut by_name = BTreeMap::new(alloc);
        for row in rows {
            match put_by_name(alloc, &mut by_name, row) {
                Ok(()) => {}
                Err(fault) => return Err(fault),
            }
        }
        Ok(ColumnNames { rows, by_name })
    }

    /// The rows.
    pub(crate) fn rows(&self) -> &'a [DiffRow]
        ensures { result.now ≡ self.now }
    {
        self.rows
    }

    /// The row of a name.
    pub(crate) fn find(&self, name: &[u8]) -> Option<&'a DiffRow>
        ensures { option_map (λ r. r.now) result ≡ named self.now name.now }
    {
        self.by_name.get(name).copied()
    }

    /// Whether there is no row of a name.
    pub(crate) fn lacks(&self, name: &[u8]) -> bool
        ensures { result ≡ is_none (named self.now name.now) }
    {
        self.by_name.get(name).is_none()
    }
}

/// Puts a row under its name, which no other has.
fn put_by_name<'a>(
    alloc: Global,
    by_name: &mut BTreeMap<Vec<u8>, &'a DiffRow>,
    row: &'a DiffRow,
) -> Result<(), DiffFault>
    ensures first { OnOk result (option_map (λ r. r.now) (in_map by_name.old row.now.name) ≡ None) }
    ensures double { IfErr result
        (λ e. e ≡ faults.Double → is_some
        (option_map (λ r. r.now) (in_map by_name.old row.now.name)) ≡ true) }
    ensures after { OnOk result ((name : List ℕ) → option_map (λ r. r.now) (in_map by_name.new name)
        ≡ (if bytes_eq row.now.name name then Some row.now else option_map (λ r. r.now) (in_map by_name.old name))) }
{
    let name = Vec::from_slice(alloc, row.name())?;
    match by_name.insert(name, row)? {
        None => Ok(()),
        Some(_) => Err(DiffFault::Double),
    }
}

/// The rows whose names aren't among those of the other side.
pub(crate) fn rows_alone<'a>(
    alloc: Global,
    rows: &'a [DiffRow],
    others: &ColumnNames<'_>,
) -> Result<Vec<&'a DiffRow>, AllocError>
    ensures { IfOk result (λ v. map (λ r. r.now) v.items ≡ alone rows.now others.now) }
{
    let mut found = Vec::new(alloc);
    for row in rows {
        push_alone(&mut found, row, others)?;
    }
    Ok(found)
}

/// Adds a row whose name isn't among those of the other side.
fn push_alone<'a>(
    found: &mut Vec<&'a DiffRow>,
    row: &'a DiffRow,
    others: &ColumnNames<'_>,
) -> Result<(), AllocError>
    ensures { OnOk result (map (λ r. r.now) found.new.items
        ≡ map (λ r. r.now) found.old.items
        ++ (if is_none (named others.now row.now.name) then row.now ∷ [] else [])) }
{
    if others.lacks(row.name()) {
        found.push(row)?;
    }
    Ok(())
}
