//! The check of the inputs: all rules that they break, in place of a run.

ghost use Rattle.std.specs.Prelude.{◌≡◌, ◌++◌, ◌∷◌, [], ℕ, List, Ok, Some, IfErr, IfOk, OnOk, length, map, string_bytes};
ghost use Rattle.outside.specs.Events.{Did};
ghost use Rattle.circ_policy.specs.Reading.{policy_of};
ghost use Rattle.circ_policy.specs.Terms.{Terms};
ghost use Rattle.schema.specs.Texts.{texts_of};
ghost use Rattle.record_tables.specs.declared.fault.BaseError.{BaseError};
ghost use Rattle.journal_table.specs.Journal.{journal_of};
ghost use Rattle.replay_run.specs.Faults.{base_fault};
ghost use Rattle.replay_run.specs.declared.fault.Fault.{Fault};
ghost use Rattle.record_tables.specs.Sizes.{AreSizes};
ghost use Rattle.run_stops.specs.Seeing.{IsOf};
ghost use Rattle.run_stops.specs.Telling.{remedy_of};
ghost use Rattle.run_stops.specs.declared.stop.RunError.{RunError};
ghost use Rattle.whole_run.specs.Checking.{AreLines, EndsChecking, FirstIsRefused, HasNoPolicy, IsText, StopsChecking, check_status, checked_line, count_line, faults_of, lines_in, listed};

use crate::files::read_inputs;
use circ_policy::Policy;
use command_line::Options;
use journal_table::{Journal, JournalError};
use outside::Outside;
use record_tables::{BaseError, TableCheck, TableSizes, check_base};
use replay_run::{Fault, Inputs};
use run_stops::{REFUSED, Remedy, RunError, stop_of};
use std::alloc::{AllocError, Global};
use std::fmt;

/// How many faults are listed at most.
const LISTED: usize = 100;

/// The status of inputs that a run takes.
const TAKEN: u8 = 0;

/// All that is to be said of inputs.
#[derive(Drop)]
struct FoundFaults {
    /// Those of the tables, and after them that of the journal.
    faults: Vec<Fault>,
    /// How many rows the tables have, where all texts are tables.
    sizes: TableSizes,
    /// How many lines the journal has, where it has no fault.
    lines: usize,
}

impl FoundFaults {
    fn status(&self) -> u8
        ensures { result ≡ check_status self.now.faults.items }
    {
        if self.faults.is_empty() {
            TAKEN
        } else {
            REFUSED
        }
    }
}

/// Reads all inputs as a run does, and prints each fault of the tables and the journal on a line,
/// the first 100 of them; if there is none, one line that says what was read. Returns the status: 2
/// if there is a fault, else 0. A policy that is refused is a stop, since no row can be judged
/// without it.
pub fn check<O: Outside>(outside: &mut O, alloc: Global, options: &Options) -> Result<u8, RunError>
    ensures ended { IfOk result
        (λ status. Did (EndsChecking options.now status) (O.log outside.old) (O.log outside.new)) }
    ensures stops { IfErr result
        (λ stop. Did (StopsChecking options.now stop) (O.log outside.old) (O.log outside.new)) }
{
    let inputs = read_inputs(outside, alloc, options)?;
    let found = find_faults(alloc, &inputs)?;
    let status = found.status();
    let text = text_of(alloc, options, &inputs, found)?;
    if outside.print(&text) {
        Ok(status)
    } else {
        Err(RunError::Output)
    }
}

/// The faults of the tables and the journal of these inputs, under their policy.
fn find_faults(alloc: Global, inputs: &Inputs) -> Result<FoundFaults, RunError>
    ensures found { IfOk result (λ found. (policy : Terms) × (policy_of inputs.now.policy.items ≡ Ok policy)
        × (found.faults.items ≡ faults_of policy (texts_of inputs.now.tables) (journal_of inputs.now.journal.items))
        × AreSizes (texts_of inputs.now.tables) found.sizes × (found.lines ≡ lines_in (journal_of inputs.now.journal.items))) }
    ensures err { IfErr result (HasNoPolicy inputs.now) }
{
    match Policy::read(alloc, inputs.policy.as_slice()) {
        Ok(policy) => Ok(judge_inputs(alloc, &policy, inputs)?),
        Err(error) => Err(stop_of(alloc, Fault::from(error), inputs)),
    }
}

/// The same under a policy.
fn judge_inputs(alloc: Global, policy: &Policy, inputs: &Inputs) -> Result<FoundFaults, AllocError>
    ensures faults { IfOk result
        (λ found. found.faults.items ≡ faults_of policy.now (texts_of inputs.now.tables)
        (journal_of inputs.now.journal.items)) }
    ensures sizes { IfOk result (λ found. AreSizes (texts_of inputs.now.tables) found.sizes) }
    ensures lines { IfOk result
        (λ found. found.lines ≡ lines_in (journal_of inputs.now.journal.items)) }
{
    match Journal::read(alloc, inputs.journal.as_slice()) {
        Ok(journal) => {
            let lines = journal.lines().len();
            let TableCheck { broken, sizes } = check_base(
                alloc,
                policy,
                &inputs.tables,
                journal.first(),
            )?;
            let faults = faults_of_tables(alloc, broken)?;
            Ok(FoundFaults {
                faults,
                sizes,
                lines,
            })
        }
        Err(JournalError::Memory) => Err(AllocError),
        Err(error) => {
            let TableCheck { broken, sizes } = check_base(alloc, policy, &inputs.tables, None)?;
            let mut faults = faults_of_tables(alloc, broken)?;
            faults.push(Fault::from(error))?;
            Ok(FoundFaults {
                faults,
                sizes,
                lines: 0,
            })
        }
    }
}

/// The faults of what tables break.
fn faults_of_tables(alloc: Global, broken: Vec<BaseError>) -> Result<Vec<Fault>, AllocError>
    ensures { IfOk result (λ faults. faults.items ≡ map base_fault broken.items) }
{
    let mut faults = Vec::with_capacity(alloc, broken.len())?;
    for error in broken {
        faults.push(Fault::from(error))?;
    }
    Ok(faults)
}

/// What is printed of what was found.
fn text_of(
    alloc: Global,
    options: &Options,
    inputs: &Inputs,
    found: FoundFaults,
) -> Result<String, AllocError>
    ensures { IfOk result (λ text. IsText options.now found.faults.items found.sizes found.lines
        (string_bytes text)) }
{
    let FoundFaults {
        faults,
        sizes,
        lines,
    } = found;
    if faults.is_empty() {
        return format!(in alloc; "{}", CheckedLine { sizes, lines });
    }
    let count = faults.len();
    let mut faults = faults;
    faults.truncate(LISTED);
    let few = faults.len();
    let mut text = lines_of(alloc, options, inputs, faults)?;
    let last = format!(in alloc; "{}", CountLine { count, few })?;
    text.push_str(last.as_str())?;
    Ok(text)
}

/// A line for each of these faults.
fn lines_of(
    alloc: Global,
    options: &Options,
    inputs: &Inputs,
    faults: Vec<Fault>,
) -> Result<String, AllocError>
    ensures { IfOk result (λ text. AreLines options.now faults.items (string_bytes text)) }
{
    let mut text = String::new(alloc);
    for fault in faults {
        let line = line_of(alloc, options, inputs, fault)?;
        text.push_str(line.as_str())?;
    }
    Ok(text)
}

/// The line of a fault, as what to do about it.
fn line_of(
    alloc: Global,
    options: &Options,
    inputs: &Inputs,
    fault: Fault,
) -> Result<String, AllocError>
    ensures { IfOk result (λ line. (stop : RunError) × IsOf fault stop
        × (string_bytes line ≡ remedy_of options.now stop)) }
{
    let stop = stop_of(alloc, fault, inputs);
    format!(in alloc;
        "{}",
        Remedy {
            stop: &stop,
            options
        }
    )
}

/// The last line where there are faults: how many, and how many of them are listed.
#[derive(Clone, Copy)]
struct CountLine {
    count: usize,
    few: usize,
}

impl fmt::Display for CountLine {
    ghost output = { λ line. Some (count_line line.count line.few) };

    fn fmt<W: fmt::Write>(&self, f: &mut fmt::Formatter<W>) -> fmt::Result {
        let CountLine { count, few } = *self;
        write!(f, "broken {count} listed {few}\n")
    }
}

/// The line where there is none: what was read.
#[derive(Clone, Copy)]
struct CheckedLine {
    sizes: TableSizes,
    lines: usize,
}

impl fmt::Display for CheckedLine {
    ghost output = { λ line. Some (checked_line line.sizes line.lines) };

    fn fmt<W: fmt::Write>(&self, f: &mut fmt::Formatter<W>) -> fmt::Result {
        let CheckedLine { sizes, lines } = *self;
        let TableSizes {
            patrons,
            items,
            loans,
            fees,
            closed,
            holds,
        } = sizes;
        write!(
            f,
            "checked patrons {patrons} items {items} loans {loans} fees {fees} closed {closed} holds {holds} lines {lines}\n"
        )
    }
}

/// The first fault of the list is that for which a run refuses the inputs; if there is none, a run
/// takes them.
pub fn first_is_refused()
    ensures { FirstIsRefused }
{}
