//! The files of a run: what it reads before anything is judged, and what it writes at its end.

ghost use Rattle.std.specs.Prelude.{◌≡◌, ◌∷◌, ◌⊎◌, [], IfErr, IfOk, Ok, List, OnOk, Option, map, true, false};
ghost use Rattle.outside.specs.Events.{Did, Event, Find, Read, after, noted};
ghost use Rattle.outside.specs.Files.{all_written, in_folder, place};
ghost use Rattle.outside.specs.Places.{place_of};
ghost use Rattle.outside.specs.declared.file_id.FileId.{FileId};
ghost use Rattle.replay_run.specs.declared.fault.Fault.TheVariants as faults;
ghost use Rattle.schema.specs.Names.{file_of, line_file};
ghost use Rattle.whole_run.specs.Reading.{AreGiven, AreRead, IsAbsent, StopsBefore, StopsReading, TellsIn, TellsMissing, is_missing};
ghost use Rattle.whole_run.specs.Run.{StopsAt};
ghost use Rattle.whole_run.specs.Sources.{files_of, places_of};
ghost use Rattle.run_stops.specs.declared.stop.RunError.TheVariants as stops;

use crate::loss::refuse_loss;
use command_line::Options;
use outside::{Failure, Outside, Unwritten, file_in_folder, write_files};
use read_set::Way;
use replay_run::{Inputs, Output};
use run_stops::RunError;
use schema::{LineTable, TableName, Tables};
use std::alloc::{AllocError, Global};

/// Reads each input whole, after it has seen that no file of the output is one of them; or says why
/// it can't.
pub fn read_inputs<O: Outside>(
    outside: &mut O,
    alloc: Global,
    options: &Options,
) -> Result<Inputs, RunError>
    ensures given { IfOk result
        (λ inputs. Did (AreGiven options.now inputs) (O.log outside.old) (O.log outside.new)) }
    ensures stops { IfErr result
        (λ stop. Did (StopsBefore options.now stop) (O.log outside.old) (O.log outside.new)) }
{
    refuse_loss(outside, alloc, options)?;
    read_all(outside, alloc, options)
}

/// Reads the policy, the tables of the base and the journal, in this order.
fn read_all<O: Outside>(
    outside: &mut O,
    alloc: Global,
    options: &Options,
) -> Result<Inputs, RunError>
    ensures given { IfOk result
        (λ inputs. Did (AreRead options.now inputs) (O.log outside.old) (O.log outside.new)) }
    ensures stops { IfErr result
        (λ stop. (events : List Event) × (O.log outside.new ≡ after events (O.log outside.old))
        × StopsReading (files_of options.now) events stop) }
{
    let base = options.base.as_str();
    let policy = read_file(outside, alloc, options.policy.as_str())?;
    let patrons = read_in(outside, alloc, base, TableName::Patrons)?;
    let items = read_in(outside, alloc, base, TableName::Items)?;
    let loans = read_in(outside, alloc, base, TableName::Loans)?;
    let fees = read_in(outside, alloc, base, TableName::Fees)?;
    let closed = read_in(outside, alloc, base, TableName::Closed)?;
    let holds = read_if_there(outside, alloc, base, TableName::Holds)?;
    let journal = read_file(outside, alloc, options.journal.as_str())?;
    let tables = Tables {
        patrons,
        items,
        loans,
        fees,
        closed,
        holds,
    };
    Ok(Inputs {
        policy,
        tables,
        journal,
        way: Way::of(options.as_recorded),
    })
}

fn read_file<O: Outside>(outside: &mut O, alloc: Global, path: &str) -> Result<Vec<u8>, RunError>
    ensures given { IfOk result
        (λ text. O.log outside.new ≡ noted (Read path.now (Ok text.items)) (O.log outside.old)) }
    ensures stops { IfErr result
        (λ stop. (events : List Event) × (O.log outside.new ≡ after events (O.log outside.old))
        × StopsReading ((path.now, false) ∷ []) events stop) }
{
    match outside.read(alloc, path) {
        Ok(text) => Ok(text),
        Err(failure) => Err(RunError::of_file(alloc, failure, path)),
    }
}

fn read_in<O: Outside>(
    outside: &mut O,
    alloc: Global,
    folder: &str,
    table: TableName,
) -> Result<Vec<u8>, RunError>
    ensures given { IfOk result
        (λ text. O.log outside.new
        ≡ noted (Read (in_folder folder.now (file_of table)) (Ok text.items)) (O.log outside.old)) }
    ensures stops { IfErr result
        (λ stop. (events : List Event) × (O.log outside.new ≡ after events (O.log outside.old))
        × StopsReading ((in_folder folder.now (file_of table), false) ∷ []) events stop) }
{
    let place = file_in_folder(alloc, folder, table.file())?;
    let path = place.as_str();
    match outside.read(alloc, path) {
        Ok(text) => Ok(text),
        Err(failure) => Err(stop_in(outside, alloc, folder, path, failure)),
    }
}

/// The stop of a file of a folder that failed. Of one that is missing the folder is looked up: it
/// may be what is missing.
fn stop_in<O: Outside>(
    outside: &mut O,
    alloc: Global,
    folder: &str,
    path: &str,
    failure: Failure,
) -> RunError
    ensures { Did (TellsIn folder.now path.now failure result) (O.log outside.old)
        (O.log outside.new) }
{
    if is_missing(failure) {
        stop_of_missing(outside, alloc, folder, path)
    } else {
        RunError::of_file(alloc, failure, path)
    }
}

/// The stop of a file that is missing, or of its folder.
fn stop_of_missing<O: Outside>(outside: &mut O, alloc: Global, folder: &str, path: &str) -> RunError
    ensures { (found : Option FileId)
        × (O.log outside.new ≡ noted (Find folder.now found) (O.log outside.old))
        × TellsMissing folder.now path.now found result }
{
    match outside.find(folder) {
        Some(_) => RunError::of_file(alloc, Failure::Missing, path),
        None => RunError::of_folder(alloc, folder, path),
    }
}

/// Whether a file fails since it isn't there.
fn is_missing(failure: Failure) -> bool
    ensures { result ≡ is_missing failure }
{
    matches!(failure, Failure::Missing)
}

/// The bytes of a file, none where there is no such file. One that is there and can't be read is a
/// stop.
fn read_if_there<O: Outside>(
    outside: &mut O,
    alloc: Global,
    folder: &str,
    table: TableName,
) -> Result<Vec<u8>, RunError>
    ensures given { IfOk result
        (λ text. (answer : _) × IsAbsent answer text.items
        × (O.log outside.new ≡ noted (Read (in_folder folder.now (file_of table)) answer)
        (O.log outside.old))) }
    ensures stops { IfErr result
        (λ stop. (events : List Event) × (O.log outside.new ≡ after events (O.log outside.old))
        × StopsReading ((in_folder folder.now (file_of table), true) ∷ []) events stop) }
{
    let path = file_in_folder(alloc, folder, table.file())?;
    match outside.read(alloc, path.as_str()) {
        Ok(text) => Ok(text),
        Err(Failure::Missing) => Ok(Vec::new(alloc)),
        Err(failure) => Err(RunError::of_file(alloc, failure, path.as_str())),
    }
}

/// Writes the tables, then the answers, the report and the passed lines, all of them or up to the
/// first that fails. Each gets its name only when it is whole; files written before one that fails
/// stay. All memory is taken before the first file is touched.
pub fn write_output<O: Outside>(
    outside: &mut O,
    alloc: Global,
    folder: &str,
    output: &Output,
) -> Result<(), RunError>
    ensures written { OnOk result
        (O.log outside.new ≡ after (all_written (places_of folder.now output.now))
        (O.log outside.old)) }
    ensures stops { IfErr result
        (λ stop. Did (λ events. ((events ≡ []) × (stop ≡ stops.Fault faults.Memory))
        ⊎ StopsAt folder.now output.now stop events) (O.log outside.old) (O.log outside.new)) }
{
    let files = files_of_output(alloc, folder, output)?;
    match write_files(outside, files.as_slice()) {
        Ok(()) => Ok(()),
        Err(unplaced) => Err(stop_in(outside, alloc, folder, unplaced.path, unplaced.failure)),
    }
}

/// The files of an output, in the order in which they are written.
fn files_of_output<'a>(
    alloc: Global,
    folder: &str,
    output: &'a Output,
) -> Result<Vec<Unwritten<'a>>, AllocError>
    ensures { IfOk result (λ files. map place_of files.items
        ≡ places_of folder.entry.now output.entry.now) }
{
    let tables = &output.tables;
    let patrons = table_file(alloc, folder, TableName::Patrons, tables.patrons.as_slice())?;
    let items = table_file(alloc, folder, TableName::Items, tables.items.as_slice())?;
    let loans = table_file(alloc, folder, TableName::Loans, tables.loans.as_slice())?;
    let fees = table_file(alloc, folder, TableName::Fees, tables.fees.as_slice())?;
    let closed = table_file(alloc, folder, TableName::Closed, tables.closed.as_slice())?;
    let holds = table_file(alloc, folder, TableName::Holds, tables.holds.as_slice())?;
    let answers = result_file(alloc, folder, LineTable::Answers, output.answers.as_slice())?;
    let report = result_file(alloc, folder, LineTable::Report, output.report.as_slice())?;
    let passed = result_file(alloc, folder, LineTable::Passed, output.passed.as_slice())?;
    Ok(vec![in alloc;
        patrons, items, loans, fees, closed, holds, answers, report, passed,
    ]?)
}

/// The file of a table of records.
fn table_file<'a>(
    alloc: Global,
    folder: &str,
    table: TableName,
    text: &'a [u8],
) -> Result<Unwritten<'a>, AllocError>
    ensures { IfOk result (λ file. place_of file
        ≡ place folder.entry.now (file_of table, text.entry.now)) }
{
    Unwritten::new(alloc, folder, table.file(), text)
}

/// The file of a result table.
fn result_file<'a>(
    alloc: Global,
    folder: &str,
    table: LineTable,
    text: &'a [u8],
) -> Result<Unwritten<'a>, AllocError>
    ensures { IfOk result (λ file. place_of file
        ≡ place folder.entry.now (line_file table, text.entry.now)) }
{
    Unwritten::new(alloc, folder, table.file(), text)
}
