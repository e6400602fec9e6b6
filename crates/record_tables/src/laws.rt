//! Laws of the definitions: functions without code, whose contracts are proved of every value.

ghost use Rattle.record_tables.specs.Laws.{EntriesAreTold, FirstIsTheFault, WrittenIsTold, WrittenReadsBack};

/// A base has at each key the record that the rows of its tables give, and no other.
pub fn entries_are_told()
    ensures { EntriesAreTold }
{}

/// The first of all rules that tables break is the fault of the base that is read of them; if they
/// break none it has no fault.
pub fn first_is_the_fault()
    ensures { FirstIsTheFault }
{}

/// The rows that are written for coherent records give these records: at each key the record that
/// is there.
pub fn written_is_told()
    ensures { WrittenIsTold }
{}

/// Coherent records that were written are read again as they were.
pub fn written_reads_back()
    ensures { WrittenReadsBack }
{}
