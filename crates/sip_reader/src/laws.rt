//! Laws of the definitions: functions without code, whose contracts are proved of every value.

ghost use Rattle.sip_reader.specs.Laws.{AmountsReadBack, FirstFieldCounts, PiecesTellTheRest};

/// Each amount is read back from the text that is written of it.
pub fn amounts_read_back()
    ensures { AmountsReadBack }
{}

/// The pieces of a message's variable part have no bar, and joined by bars they are that part
/// again.
pub fn pieces_tell_the_rest()
    ensures { PiecesTellTheRest }
{}

/// The first piece that begins with an identifier counts, whatever comes after it.
pub fn first_field_counts()
    ensures { FirstFieldCounts }
{}
