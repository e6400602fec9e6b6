//! What follows from the definitions alone.

ghost use Rattle.std.specs.Prelude.{◌≡◌, ◌↔◌, [], ℕ, Bool, List};
ghost use Rattle.table_diff.specs.Differences.{differences};
ghost use Rattle.table_diff.specs.Rows.{RowTexts};
ghost use Rattle.table_diff.specs.Same.{IsSame};

/// Nothing is listed exactly if both sides are the same, except for names that the keeper of the
/// table made.
pub fn lists_nothing_where_same()
    ensures { (table : List ℕ) (columns : List (List ℕ)) (renamed : Bool) (left right : List RowTexts)
        → (differences table columns renamed left right ≡ []) ↔ IsSame columns renamed left right }
{}
