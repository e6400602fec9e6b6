//! What became of a line.

ghost use Rattle.std.specs.Prelude.{◌≡◌, IfSome};
ghost use Rattle.one_run.specs.OneRun.{is_answered, is_passed, is_wrong};

/// What became of a line of the journal.
#[derive(Clone, Copy, PartialEq, Eq)]
pub enum Fate {
    /// It was passed over: it has no answer.
    Passed,
    /// It has an answer, with which the recorded response agrees.
    Right,
    /// It has an answer, from which the recorded response differs.
    Wrong,
}

/// The fate of a line, by the tables that have its row. None where it has rows in no table, or in tables that exclude one another.
pub fn fate_of(answered: bool, passed: bool, wrong: bool) -> Option<Fate>
    ensures answered { IfSome result (λ fate. is_answered fate ≡ answered) }
    ensures passed { IfSome result (λ fate. is_passed fate ≡ passed) }
    ensures wrong { IfSome result (λ fate. is_wrong fate ≡ wrong) }
{
    match (answered, passed, wrong) {
        (false, true, false) => Some(Fate::Passed),
        (true, false, false) => Some(Fate::Right),
        (true, false, true) => Some(Fate::Wrong),
        _ => None,
    }
}
