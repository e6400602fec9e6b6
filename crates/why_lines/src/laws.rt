//! A law of the definitions: a function without code, whose contract is proved of every value.

ghost use Rattle.why_lines.specs.InRun.{CasesAreOfTheRun};

/// What a case says of its line is what the whole run says: the row of its answers is the row that the run writes of the line.
pub fn cases_are_of_the_run()
    ensures { CasesAreOfTheRun }
{}
