//! What is refused of the files and words of a run.

use replay_run::Fault;
use std::alloc::Global;
use why_run::NotExplained;

/// The first fault of the policy, the tables and the journal.
pub fn refused_by(alloc: Global, fault: &Fault) -> NotExplained {
    if let Fault::Memory = fault {
        return NotExplained::Memory;
    }
    let number = fault.number();
    match format!(in alloc; "fault {number}: {fault}\n") {
        Ok(text) => NotExplained::Refused(text),
        Err(_) => NotExplained::Memory,
    }
}

/// What is refused, and the word that is to blame.
pub fn refused(alloc: Global, what: &str, word: &str) -> NotExplained {
    match format!(in alloc; "error: {what} {word}\n") {
        Ok(text) => NotExplained::Refused(text),
        Err(_) => NotExplained::Memory,
    }
}
