//! A law of the definitions: a function without code, whose contract is proved of every value.

ghost use Rattle.replay_run.specs.FinalTables.{FinalTablesReadBack};

use circ_records::Records;

/// The six tables of the records after the last line are read again as these records, as a base
/// before a journal without lines.
pub fn final_tables_read_back(base: &Records)
    ensures { FinalTablesReadBack base.now }
{
    let _records = base.as_slice();
}
