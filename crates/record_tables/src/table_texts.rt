//! The tables while they are written: those of patrons and fees, and those of items. Neither needs
//! the other, so each has its own walk over the records.

ghost use Rattle.std.specs.Prelude.{◌≡◌, [], Some, IfOk, OnOk};
ghost use Rattle.csv_table.specs.Text.{written};
ghost use Rattle.circ_records.specs.Records.{Entries};
ghost use Rattle.schema.specs.Names.{header_of};
ghost use Rattle.schema.specs.Texts.{texts_of};
ghost use Rattle.record_tables.specs.Writing.{GainsItem, GainsPatron, HoldsItems, HoldsPatrons, ItemWidths, PatronWidths};
ghost use Rattle.record_tables.specs.Written.{tables_of};
ghost use Rattle.circ_records.specs.declared.key.Key.TheVariants as key_of;
ghost use Rattle.circ_records.specs.declared.record.Record.TheVariants as record_of;

use crate::fee_rows::{write_closed, write_fees};
use crate::hold_rows::write_holds;
use crate::loan_rows::write_loans;
use crate::row_texts::flag_text;
use circ_records::{Item, Key, Patron, Record, Records};
use csv_table::TableText;
use schema::{TableName, Tables};
use std::alloc::{AllocError, Global};

/// What patrons and fees have in the tables. If memory runs out all texts are dropped
/// (`written.rt`), so nothing is said of what they then hold.
#[derive(Drop)]
pub(crate) struct PatronTexts {
    pub(crate) patrons: TableText,
    pub(crate) loans: TableText,
    pub(crate) fees: TableText,
    pub(crate) closed: TableText,
}

impl PatronTexts {
    /// The headers alone.
    pub(crate) fn new(alloc: Global) -> Result<PatronTexts, AllocError>
        ensures { IfOk result (λ texts. (all : Entries) → HoldsPatrons all [] texts) }
    {
        Ok(PatronTexts {
            patrons: under(alloc, TableName::Patrons)?,
            loans: under(alloc, TableName::Loans)?,
            fees: under(alloc, TableName::Fees)?,
            closed: under(alloc, TableName::Closed)?,
        })
    }

    /// Writes what an entry of the records has in each of these tables: an item has nothing there,
    /// and neither has a record of another kind than its key's.
    pub(crate) fn entry(
        &mut self,
        alloc: Global,
        records: &Records,
        key: &Key,
        record: &Record,
    ) -> Result<(), AllocError>
        requires { PatronWidths self.old }
        ensures { OnOk result (GainsPatron records.now (key.now, «record».now) self.old self.new) }
    {
        match (key, record) {
            (Key::Patron(id), Record::Patron(patron)) => {
                self.patron(alloc, records, id.as_bytes(), patron.get())
            }
            (Key::Fee(id), Record::Fee(fee)) => {
                write_closed(alloc, &mut self.closed, id.as_bytes(), fee.get())
            }
            _ => Ok(()),
        }
    }

    /// A patron, and what the lists of loans and open fees name.
    fn patron(
        &mut self,
        alloc: Global,
        records: &Records,
        id: &[u8],
        patron: &Patron,
    ) -> Result<(), AllocError>
        requires { PatronWidths self.old }
        ensures { OnOk result (GainsPatron records.now
            (key_of.Patron id.now, record_of.Patron patron.now) self.old self.new) }
    {
        self.patrons.row(&[
            id,
            patron.name.as_bytes(),
            patron.class.as_bytes(),
            flag_text(patron.blocked).as_slice(),
        ])?;
        write_loans(&mut self.loans, records, id, patron.loans.as_slice())?;
        write_fees(alloc, &mut self.fees, records, id, patron.fees.as_slice())
    }
}

/// What items have in the tables; where memory runs out, the same holds.
#[derive(Drop)]
pub(crate) struct ItemTexts {
    pub(crate) items: TableText,
    pub(crate) holds: TableText,
}

impl ItemTexts {
    /// The headers alone.
    pub(crate) fn new(alloc: Global) -> Result<ItemTexts, AllocError>
        ensures { IfOk result (HoldsItems []) }
    {
        Ok(ItemTexts {
            items: under(alloc, TableName::Items)?,
            holds: under(alloc, TableName::Holds)?,
        })
    }

    /// Writes what an entry of the records has in both tables: what is no item has nothing there.
    pub(crate) fn entry(&mut self, key: &Key, record: &Record) -> Result<(), AllocError>
        requires { ItemWidths self.old }
        ensures { OnOk result (GainsItem (key.now, «record».now) self.old self.new) }
    {
        match (key, record) {
            (Key::Item(id), Record::Item(item)) => self.item(id.as_bytes(), item.get()),
            _ => Ok(()),
        }
    }

    /// An item and its queue.
    fn item(&mut self, id: &[u8], item: &Item) -> Result<(), AllocError>
        requires { ItemWidths self.old }
        ensures { OnOk result (GainsItem
            (key_of.Item id.now, record_of.Item item.now) self.old self.new) }
    {
        self.items.row(&[
            id,
            item.title.as_bytes(),
            item.media.code().as_slice(),
            item.location.as_bytes(),
            item.properties.as_bytes(),
        ])?;
        write_holds(&mut self.holds, id, item.holds.as_slice())
    }
}

/// The six texts, when both walks have gone over all records.
#[tactic(auto, unfolding(crate::specs::Written::rows_telling))]
pub(crate) fn finish(patrons: PatronTexts, items: ItemTexts) -> Result<Tables, AllocError>
    ensures { IfOk result (λ tables. (all : Entries) → HoldsPatrons all all patrons
        → HoldsItems all items → texts_of tables ≡ tables_of all) }
{
    let PatronTexts {
        patrons,
        loans,
        fees,
        closed,
    } = patrons;
    let ItemTexts { items, holds } = items;
    Ok(Tables {
        patrons: patrons.finish()?,
        items: items.finish()?,
        loans: loans.finish()?,
        fees: fees.finish()?,
        closed: closed.finish()?,
        holds: holds.finish()?,
    })
}

/// A table of its header alone.
fn under(alloc: Global, table: TableName) -> Result<TableText, AllocError>
    ensures { IfOk result (λ text. text ≡ Some (written (header_of table) [])) }
{
    TableText::under(alloc, table.header())
}
