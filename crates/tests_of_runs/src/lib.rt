//! Tests of what no contract says and no run of the built program shows: replies of the board step
//! by step, lists of steps, workers in threads whose gate is called at each step, faults that were
//! left, lines over records that don't fit together, two stores of entries side by side, whole runs
//! over an outside of which each call fails in turn, and runs of which one growth of the heap is
//! refused, by `.ci/growths`. Data are texts.
//!
//! A book is a text of scripts. A script begins with `#` and its title, and the rows of its files,
//! each after the name of its file: `loans P1,I1,20260316,0`. They come after those of the library
//! with which each run begins (`texts`): patrons P1 (Ann) and P2 (Bob) of class A, the book I1 and
//! the video tapes V1 and V2, closed on Sundays. `starting ATTEMPT CLOCK` says with which attempt
//! and at which clock its board begins, else 0 and 0. After an empty line come calls, each with the
//! reply that must come after ` = `; after a second one, calls of the same board, which is shared
//! from then on.
//!
//! | Call of the board | What it does |
//! |---|---|
//! | `take WORKER LINE` | `taken ATTEMPT` |
//! | `look WORKER ID` | `seen NAME`, a name being `base` or a line and its attempt, `1.0`; as a
//! step, a look at the key that the line needs next |
//! | `publish WORKER` | an act of the version of the last act, else of the one that the line needs
//! |
//! | `publish WORKER OTHER` | an act of a new version, the one that the other worker's line needs |
//! | `check WORKER LINE`, `commit LINE` | the calls of these names; `changed ID NOTED FOUND` |
//! | `choose`, `begin WORKER` | the choice of a free worker, `take 1`; with its reply, `take 1:
//! taken 0` |
//! | `does WORKER` | what the line does: its answer, then each record that it writes (`told`); or
//! `needs ID`, a record that it needs first |
//! | `clock`, `committed`, `counts` | the board's; of the counts takes, failed checks, stops,
//! commits and live lines |
//! | `run WORKERS` | a run by the steps so far: `output` and the attempts where all else is what
//! one thread gives, `unfinished` and how many lines are committed, or the fault |
//! | `play on` | the steps so far as a list on another board, closed as where its workers have
//! ended: `output` and its attempts, or those of a new board, all 0, where lines are open; or after
//! how many steps the list halts |
//! | `one thread` | the nine files that one thread gives |
//!
//! Of a shared board: `begin`, `look WORKER ID`, `publish WORKER` (the version of a line that the
//! journal lacks), `publish_more`, `check`, `leave FAULT`, `run workers`, and last how many lines
//! are committed as it is closed.
#![tactic(auto)]

mod asked;
#[cfg(test)]
mod books;
#[cfg(test)]
mod calls;
#[cfg(test)]
mod memory;
#[cfg(test)]
mod odd;
#[cfg(test)]
mod parts;
#[cfg(test)]
mod plain;
#[cfg(test)]
mod refused;
#[cfg(test)]
mod script;
#[cfg(test)]
mod shared;
#[cfg(test)]
mod steps;
#[cfg(test)]
mod tests;
#[cfg(test)]
mod texts;
#[cfg(test)]
mod threads;
#[cfg(test)]
mod told;
#[cfg(test)]
mod versions;
#[cfg(test)]
mod whole;

pub use asked::Call;
