//! All rules that the tables of a base break.

ghost use Rattle.std.specs.Prelude.{◌≡◌, ◌++◌, IfOk, OnOk};
ghost use Rattle.record_tables.specs.AllBroken.{all_broken_rows, broken_rules, no_tables, text_fault};
ghost use Rattle.record_tables.specs.Read.{AreTables, rows_in, text_rows};
ghost use Rattle.record_tables.specs.Sizes.{AreSizes, sizes_of};
ghost use Rattle.schema.specs.Texts.{texts_of};

use crate::adding::BaseSource;
use crate::fault::BaseError;
use crate::judge::SeenRows;
use crate::rows::check_table;
use crate::sizes::TableSizes;
use circ_policy::Policy;
use schema::{TableName, Tables};
use std::alloc::{AllocError, Global};

/// What a check finds in the tables of a base.
#[derive(Drop)]
pub struct TableCheck {
    /// Each row that breaks a rule, table by table, with the first rule that it breaks; or, where
    /// texts are no tables, each of these.
    pub broken: Vec<BaseError>,
    /// How many rows the tables have, where all texts are tables.
    pub sizes: TableSizes,
}

/// Lists each row that breaks a rule, once, with the first rule that it breaks; or, if texts are no
/// tables, just these. `first` is the number of the journal's first line, where it has one: no fee
/// of the base may have an id that this line or a later one makes.
#[tactic(auto, unfolding(crate::specs::AllBroken::broken_rules))]
pub fn check_base(
    alloc: Global,
    policy: &Policy,
    tables: &Tables,
    first: Option<u64>,
) -> Result<TableCheck, AllocError>
    ensures broken { IfOk result
        (λ check. check.broken.items ≡ broken_rules policy.now (texts_of tables.now) first) }
    ensures sizes { IfOk result (λ check. AreSizes (texts_of tables.now) check.sizes) }
{
    let broken = no_tables(alloc, tables)?;
    if broken.is_empty() {
        judge_tables(alloc, policy, tables, first)
    } else {
        let sizes = TableSizes {
            patrons: 0,
            items: 0,
            loans: 0,
            fees: 0,
            closed: 0,
            holds: 0,
        };
        Ok(TableCheck { broken, sizes })
    }
}

/// The same of texts that are tables.
#[tactic(auto, unfolding(crate::specs::AllBroken::all_broken_rows))]
fn judge_tables(
    alloc: Global,
    policy: &Policy,
    tables: &Tables,
    first: Option<u64>,
) -> Result<TableCheck, AllocError>
    requires { AreTables tables.now }
    ensures broken { IfOk result
        (λ check. check.broken.items ≡ all_broken_rows policy.now first (rows_in tables.now)) }
    ensures sizes { IfOk result (λ check. check.sizes ≡ sizes_of (rows_in tables.now)) }
{
    let source = BaseSource {
        tables,
        policy,
        first,
    };
    let mut seen = SeenRows::none(alloc);
    let mut broken = Vec::new(alloc);
    let patrons = source.judge_rows(alloc, TableName::Patrons, &mut seen, &mut broken)?;
    let items = source.judge_rows(alloc, TableName::Items, &mut seen, &mut broken)?;
    let loans = source.judge_rows(alloc, TableName::Loans, &mut seen, &mut broken)?;
    let fees = source.judge_rows(alloc, TableName::Fees, &mut seen, &mut broken)?;
    let closed = source.judge_rows(alloc, TableName::Closed, &mut seen, &mut broken)?;
    let holds = source.judge_rows(alloc, TableName::Holds, &mut seen, &mut broken)?;
    let sizes = TableSizes {
        patrons,
        items,
        loans,
        fees,
        closed,
        holds,
    };
    Ok(TableCheck { broken, sizes })
}

/// Each text that is no table under its header, by the table's name.
#[tactic(auto, unfolding(crate::specs::AllBroken::no_tables))]
fn no_tables(alloc: Global, tables: &Tables) -> Result<Vec<BaseError>, AllocError>
    ensures { IfOk result (λ faults. faults.items ≡ no_tables (texts_of tables.now)) }
{
    let mut faults = Vec::new(alloc);
    test_text(alloc, TableName::Patrons, tables, &mut faults)?;
    test_text(alloc, TableName::Items, tables, &mut faults)?;
    test_text(alloc, TableName::Loans, tables, &mut faults)?;
    test_text(alloc, TableName::Fees, tables, &mut faults)?;
    test_text(alloc, TableName::Closed, tables, &mut faults)?;
    test_text(alloc, TableName::Holds, tables, &mut faults)?;
    Ok(faults)
}

/// Adds a text to those that are no tables, where it is none under its header.
fn test_text(
    alloc: Global,
    table: TableName,
    tables: &Tables,
    faults: &mut Vec<BaseError>,
) -> Result<(), AllocError>
    ensures { OnOk result (faults.new.items
        ≡ faults.old.items ++ text_fault table (text_rows table tables.now)) }
{
    match check_table(alloc, table, tables) {
        Ok(()) => {}
        Err(BaseError::Memory) => return Err(AllocError),
        Err(fault) => faults.push(fault)?,
    }
    Ok(())
}
