//! The tests that run the books of scripts.

use crate::books::{checked, choices, lists, refused, rows, shared, spared};
use crate::script::run_scripts;
use std::test::Fail;

#[test]
fn scripts_of_lines_that_run_early(rt: HostRuntime) -> Result<(), Fail> {
    for book in [
        rows::STALE,
        rows::IN_PART,
        rows::SUSPECT,
        rows::LATE,
        rows::EARLY,
        rows::IN_ORDER,
    ] {
        run_scripts(&rt, book)?;
    }
    Ok(())
}

#[test]
fn scripts_of_calls(rt: HostRuntime) -> Result<(), Fail> {
    for book in [
        checked::CHANGES,
        choices::CHOICES,
        refused::REFUSED,
        spared::SPARED,
        spared::NEEDED,
        lists::LISTS,
    ] {
        run_scripts(&rt, book)?;
    }
    Ok(())
}

#[test]
fn gives_the_replies_of_the_board(rt: HostRuntime) -> Result<(), Fail> {
    run_scripts(&rt, shared::STEPS)
}

#[test]
fn ends_where_a_fault_was_left(rt: HostRuntime) -> Result<(), Fail> {
    run_scripts(&rt, shared::FAULTS)
}
