//! The rows of the tables, added to the records one after the other.

ghost use Rattle.std.specs.Prelude.{◌≡◌, ◌++◌, ◌∷◌, [], List, None, IsSome, IfOk, IfErr, OnOk};
ghost use Rattle.csv.specs.Records.{fields_of};
ghost use Rattle.record_tables.specs.Base.{broken_in, own_rows, rule_of};
ghost use Rattle.record_tables.specs.Read.{AreTold, AreWaiting, StopsIn, rows_in, text_rows, up_to};
ghost use Rattle.record_tables.specs.Tables.{Row, Rows};

use crate::closed::add_closed;
use crate::fault::BaseError;
use crate::fees::add_open;
use crate::items::put_item;
use crate::loans::add_loan;
use crate::patrons::put_patron;
use crate::queues::add_hold;
use crate::rows::TableRows;
use circ_policy::Policy;
use circ_records::{BaseRule, RecordMap};
use csv::ByteRecord;
use schema::{TableName, Tables};
use sip_reader::Id;
use std::alloc::{AllocError, Global};
use std::collections::BTreeSet;

/// What a base is read of: its tables, the policy, and the number of the journal's first line.
#[derive(Clone, Copy)]
pub(crate) struct BaseSource<'t> {
    pub(crate) tables: &'t Tables,
    pub(crate) policy: &'t Policy,
    pub(crate) first: Option<u64>,
}

impl BaseSource<'_> {
    /// Adds the rows of a table to the records of the tables before it, or returns the first rule
    /// that a row breaks: then nothing is said of the records.
    pub(crate) fn add_rows(
        &self,
        alloc: Global,
        table: TableName,
        records: &mut RecordMap,
    ) -> Result<(), BaseError>
        requires { AreTold (up_to table (rows_in self.now.tables.now) []) records.old }
        ensures read { OnOk result (IsSome (text_rows table self.now.tables.now)) }
        ensures ok { OnOk result (broken_in self.now.policy.now self.now.first table
            (rows_in self.now.tables.now) ≡ None) }
        ensures told { OnOk result
            (AreTold (up_to table (rows_in self.now.tables.now)
            (own_rows table (rows_in self.now.tables.now))) records.new) }
        ensures err { IfErr result
            (λ e. StopsIn e table self.now.tables.now
            (broken_in self.now.policy.now self.now.first table (rows_in self.now.tables.now))) }
    {
        let mut rows = TableRows::of(alloc, table, self.tables)?;
        let mut waiting = BTreeSet::new(alloc);
        let mut row = ByteRecord::new(alloc);
        while rows.next(&mut row)? {
            let broken = self.add_row(alloc, table, &row, records, &mut waiting)?;
            if let Some(rule) = broken {
                return Err(rows.broken(rule, row));
            }
        }
        Ok(())
    }

    /// Adds a row of a table to the records of the rows before it, or returns the first rule that
    /// the row breaks. A row that breaks one may leave a part of its record there. `waiting` has
    /// the item and the patron of each hold.
    fn add_row(
        &self,
        alloc: Global,
        table: TableName,
        row: &ByteRecord,
        records: &mut RecordMap,
        waiting: &mut BTreeSet<(Id, Id)>,
    ) -> Result<Option<BaseRule>, AllocError>
        ensures rule { IfOk result (λ broken. (r : Rows) (before : List Row) → AreTold (up_to table r before) records.old → AreWaiting (up_to table r before).holds waiting.old
            → broken ≡ rule_of self.now.policy.now self.now.first table r before (fields_of row.now)) }
        ensures told { IfOk result (λ broken. broken ≡ None → (r : Rows) (before : List Row) → AreTold (up_to table r before) records.old → AreWaiting (up_to table r before).holds waiting.old
            → AreTold (up_to table r (before ++ fields_of row.now ∷ [])) records.new) }
        ensures waiting { IfOk result (λ broken. broken ≡ None → (r : Rows) (before : List Row) → AreWaiting (up_to table r before).holds waiting.old
            → AreWaiting (up_to table r (before ++ fields_of row.now ∷ [])).holds waiting.new) }
    {
        match table {
            TableName::Patrons => put_patron(alloc, self.policy, row, records),
            TableName::Items => put_item(alloc, self.policy, row, records),
            TableName::Loans => add_loan(alloc, row, records),
            TableName::Fees => add_open(alloc, self.first, row, records),
            TableName::Closed => add_closed(alloc, self.first, row, records),
            TableName::Holds => add_hold(alloc, row, records, waiting),
        }
    }
}
