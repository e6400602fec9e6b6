//! Whole runs from the words of the command line on, over an outside in memory of which each call
//! fails in turn.

use crate::memory::Memory;
use crate::texts::inputs_of;
use outside::Outside;
use std::process::Abort;
use std::rt::Clock;
use std::sync::Wait;
use std::thread::Threads;
use whole_run::run;

/// An item status update that was answered as it should be, and a message that is passed over.
const LINES: &str = "\
journal 1,C1,1920260302    101500AOL1|ABI1|CHtorn|,20120260302    101500ABI1|AJOne|CHtorn|
journal 2,C1,9900302.00,";

/// How many files a run is given. There is no `holds.csv`.
const GIVEN: usize = 7;

/// The files that a run writes, in this order.
const WRITTEN: [&str; 9] = [
    "out/patrons.csv",
    "out/items.csv",
    "out/loans.csv",
    "out/fees.csv",
    "out/closed.csv",
    "out/holds.csv",
    "out/answers.csv",
    "out/report.csv",
    "out/passed.csv",
];

const WORDS: [&str; 11] = [
    "sip_replay",
    "--policy",
    "policy.toml",
    "--base",
    "base",
    "--journal",
    "journal.csv",
    "--out",
    "out",
    "--workers",
    "1",
];

/// How many paths are looked up before anything is read: 8 that are read, and 18 that are written
/// to.
const LOOKS: usize = 26;

/// How many files are read.
const READS: usize = 8;

/// How often a file is made and renamed.
const WRITES: usize = 18;

/// Puts the files of a run there.
fn put_files<R: AllocGlobal + Abort>(rt: &R, memory: &mut Memory<'_, R>) {
    let given = inputs_of(rt.alloc(), LINES).expect(rt, "memory");
    memory.put("policy.toml", given.policy.as_slice());
    memory.put("base/patrons.csv", given.tables.patrons.as_slice());
    memory.put("base/items.csv", given.tables.items.as_slice());
    memory.put("base/loans.csv", given.tables.loans.as_slice());
    memory.put("base/fees.csv", given.tables.fees.as_slice());
    memory.put("base/closed.csv", given.tables.closed.as_slice());
    memory.put("journal.csv", given.journal.as_slice());
}

/// The status of a run of these words. (It is called over any outside, and with any words: a proof
/// that knows them looks through what they ask for.)
fn status_of<R: Threads + Wait + Sync + Clock + Eprint + AllocGlobal, O: Outside>(
    rt: &R,
    outside: &mut O,
    words: &[&str],
) -> u8 {
    run(rt, outside, words)
}

/// The run of these words over memory, of which a call fails, and its status.
fn ran<'a, R: Threads + Wait + Sync + Clock + Eprint + AllocGlobal + Abort>(
    rt: &'a R,
    words: &[&str],
    fails: Option<usize>,
) -> (Memory<'a, R>, u8) {
    let mut memory = Memory::new(rt, rt.alloc(), fails);
    put_files(rt, &mut memory);
    let status = status_of(rt, &mut memory, words);
    (memory, status)
}

/// Whether just this many files of the output are there, each with all its bytes, and nothing else
/// is.
fn has_written<R: Abort>(memory: &Memory<'_, R>, whole: &Memory<'_, R>, count: usize) -> bool {
    for path in WRITTEN.iter().take(count) {
        if memory.text(path) != whole.text(path) {
            return false;
        }
    }
    memory.count().checked_sub(GIVEN) == Some(count)
}

/// Whether a run of which this call fails has its status, says which file it was about, and has
/// written the files before that.
fn ends_so<R: Abort>(
    memory: &Memory<'_, R>,
    whole: &Memory<'_, R>,
    status: u8,
    call: usize,
) -> bool {
    // a path that can't be looked up leads to no file
    if call < LOOKS {
        return status == 0 && has_written(memory, whole, WRITTEN.len());
    }
    let written = call.saturating_sub(LOOKS + READS) / 2;
    let is_file = written < WRITTEN.len();
    status == 3
        && memory.told().starts_with(b"file: ") == is_file
        && has_written(memory, whole, written)
}

fn try_each_call<R: Threads + Wait + Sync + Clock + Eprint + AllocGlobal + Abort>(rt: &R) {
    let (whole, status) = ran(rt, &WORDS, None);
    assert!(rt; status == 0 && has_written(&whole, &whole, WRITTEN.len()));
    assert!(rt; whole.asked() == LOOKS + READS + WRITES + 1);
    for call in 0..whole.asked() {
        let (memory, status) = ran(rt, &WORDS, Some(call));
        assert!(rt; ends_so(&memory, &whole, status, call), "call {call}");
    }
}

#[test]
fn each_call_of_the_outside_fails_in_turn(rt: HostRuntime) {
    try_each_call(&rt);
}
