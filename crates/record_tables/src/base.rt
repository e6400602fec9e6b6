//! The records that a run begins with.

ghost use Rattle.std.specs.Prelude.{◌≡◌, ◌<◌, None, IfOk, IfErr};
ghost use Rattle.record_tables.specs.Base.{Gives, base_of, first_broken};
ghost use Rattle.circ_records.specs.Coherent.{AreOfKind, Coherent, number_before};
ghost use Rattle.record_tables.specs.Read.{AreTables, StopsAll, rows_in};
ghost use Rattle.circ_records.specs.Records.{record_at};
ghost use Rattle.schema.specs.Texts.{texts_of};
ghost use Rattle.record_tables.specs.Told.{entries_told};

use crate::adding::BaseSource;
use crate::fault::BaseError;
use crate::rows::check_tables;
use circ_policy::Policy;
use circ_records::{RecordMap, Records};
use schema::{TableName, Tables};
use std::alloc::Global;

/// Gives the base that the tables say, coherent before the journal's first line, or exactly the
/// first fault: a text that is no table, or else the first row that breaks a rule. `first` is the
/// number of the journal's first line: no fee of the base has an id that this line or a later one
/// may make.
pub fn read_base(
    alloc: Global,
    policy: &Policy,
    tables: &Tables,
    first: Option<u64>,
) -> Result<Records, BaseError>
    ensures told { Gives result (base_of policy.now (texts_of tables.now) first) }
    ensures coherent { IfOk result (λ b. Coherent policy.now (number_before first) b) }
    ensures kinds { IfOk result (λ b. AreOfKind (record_at b)) }
{
    let source = BaseSource {
        tables,
        policy,
        first,
    };
    match records_of(alloc, &source) {
        Ok(base) => Ok(base),
        Err(
            BaseError::Rule {
                table,
                row,
                rule,
                values,
            },
        ) => {
            check_tables(alloc, tables)?;
            Err(BaseError::Rule {
                table,
                row,
                rule,
                values,
            })
        }
        Err(BaseError::Table { table }) => Err(BaseError::Table { table }),
        Err(BaseError::Memory) => Err(BaseError::Memory),
    }
}

/// Few rows have fewer bytes.
const ROW_BYTES: usize = 16;

/// A guess at how many records the tables have. If they have more, the list grows.
fn likely_rows(tables: &Tables) -> usize {
    let bytes = tables
        .patrons
        .len()
        .saturating_add(tables.items.len())
        .saturating_add(tables.fees.len())
        .saturating_add(tables.closed.len());
    bytes / ROW_BYTES
}

/// The base of the rows of the tables, table by table, or the first rule that a row breaks.
fn records_of(alloc: Global, source: &BaseSource<'_>) -> Result<Records, BaseError>
    ensures read { IfOk result (λ b. AreTables source.now.tables.now) }
    ensures ok { IfOk result (λ b. first_broken source.now.policy.now source.now.first
        (rows_in source.now.tables.now) ≡ None) }
    ensures told { IfOk result (λ b. b ≡ entries_told (rows_in source.now.tables.now)) }
    ensures coherent { IfOk result
        (λ b. Coherent source.now.policy.now (number_before source.now.first) b) }
    ensures kinds { IfOk result (λ b. AreOfKind (record_at b)) }
    ensures err { IfErr result
        (λ e. StopsAll e source.now.tables.now
        (first_broken source.now.policy.now source.now.first (rows_in source.now.tables.now))) }
{
    let mut listed = RecordMap::with_capacity(alloc, likely_rows(source.tables))?;
    source.add_rows(alloc, TableName::Patrons, &mut listed)?;
    source.add_rows(alloc, TableName::Items, &mut listed)?;
    // each patron and item that the other tables name is looked for
    let mut hinted = listed.with_hints(alloc)?;
    source.add_rows(alloc, TableName::Loans, &mut hinted)?;
    source.add_rows(alloc, TableName::Fees, &mut hinted)?;
    source.add_rows(alloc, TableName::Closed, &mut hinted)?;
    source.add_rows(alloc, TableName::Holds, &mut hinted)?;
    let records = Records::from_map(alloc, hinted)?;
    Ok(records)
}
