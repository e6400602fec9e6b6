//! What holds of a replay as recorded, beside one by the rules: laws alone, functions without code,
//! whose contracts are proved of every value.
#![tactic(auto)]

ghost use Rattle.way_laws.specs.BothWays.{LentIsOnLoan, SameIfNoWordDiffers, SameRunIfNoneDiffers, UndoneChangesNothing};

/// If a recorded response says that nothing was done, its line writes no record.
pub fn undone_changes_nothing()
    ensures { UndoneChangesNothing }
{}

/// A line whose recorded response differs in no word from the answer does the same both ways.
pub fn same_if_no_word_differs()
    ensures { SameIfNoWordDiffers }
{}

/// If no recorded response differs from the answers of a run by the rules, a run as recorded has the
/// same records after each line, and the same answers.
pub fn same_run_if_none_differs()
    ensures { SameRunIfNoneDiffers }
{}

/// If a recorded response says that an item was lent or renewed, and patron and item are known, the item
/// is on loan to the patron then, and due on the day that the response names.
pub fn lent_is_on_loan()
    ensures { LentIsOnLoan }
{}
