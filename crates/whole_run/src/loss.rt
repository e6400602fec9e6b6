//! No input is lost: where a file of the output would replace one that is read, the run ends before
//! it begins.

ghost use Rattle.std.specs.Prelude.{◌≡◌, ◌++◌, IfErr, IfOk, OnErr, OnOk, map, option_map, string_bytes};
ghost use Rattle.std.specs.List.{list_any, position};
ghost use Rattle.outside.specs.Events.{Did};
ghost use Rattle.whole_run.specs.Looking.{AreApart, AreFound, AreLooks, StopsLooking, input_at, is_among, is_found};
ghost use Rattle.outside.specs.Files.{in_folder};
ghost use Rattle.schema.specs.Names.{file_of};
ghost use Rattle.whole_run.specs.Sources.{both_paths, files_of, paths_in};

use command_line::Options;
use outside::{FileId, Outside, file_in_folder};
use run_stops::{InputName, RunError};
use schema::{LineTable, TableName};
use std::alloc::{AllocError, Global};

/// Stops the run if memory runs out, and else exactly if a file that is to be written is also one
/// that is read; it looks files up, and does nothing else with them.
pub fn refuse_loss<O: Outside>(
    outside: &mut O,
    alloc: Global,
    options: &Options,
) -> Result<(), RunError>
    ensures apart { OnOk result
        (Did (AreApart options.now) (O.log outside.old) (O.log outside.new)) }
    ensures stops { IfErr result
        (λ stop. Did (StopsLooking options.now stop) (O.log outside.old) (O.log outside.new)) }
{
    let inputs = paths_read(alloc, options)?;
    let outputs = paths_written(alloc, options.out.as_str())?;
    let read = find_all(outside, alloc, inputs.as_slice())?;
    let written = find_all(outside, alloc, outputs.as_slice())?;
    match lost(read.as_slice(), written.as_slice()) {
        Some(input) => Err(RunError::of_loss(alloc, options, input)),
        None => Ok(()),
    }
}

/// The paths of the files that are read, in the order of reading.
fn paths_read(alloc: Global, options: &Options) -> Result<Vec<String>, AllocError>
    ensures { IfOk result (λ paths. map string_bytes paths.items
        ≡ map (λ f. f.0) (files_of options.now)) }
{
    let base = options.base.as_str();
    let policy = String::from_str(alloc, options.policy.as_str())?;
    let patrons = table_path(alloc, base, TableName::Patrons)?;
    let items = table_path(alloc, base, TableName::Items)?;
    let loans = table_path(alloc, base, TableName::Loans)?;
    let fees = table_path(alloc, base, TableName::Fees)?;
    let closed = table_path(alloc, base, TableName::Closed)?;
    let holds = table_path(alloc, base, TableName::Holds)?;
    let journal = String::from_str(alloc, options.journal.as_str())?;
    Ok(vec![in alloc; policy, patrons, items, loans, fees, closed, holds, journal]?)
}

/// The path of a table in a folder.
fn table_path(alloc: Global, folder: &str, table: TableName) -> Result<String, AllocError>
    ensures { IfOk result (λ path. string_bytes path ≡ in_folder folder.now (file_of table)) }
{
    file_in_folder(alloc, folder, table.file())
}

/// The paths that are written to in a folder: each file's, and its temporary one.
fn paths_written(alloc: Global, folder: &str) -> Result<Vec<String>, AllocError>
    ensures { IfOk result (λ paths. map string_bytes paths.items ≡ paths_in folder.now) }
{
    let mut paths = Vec::new(alloc);
    add_paths(alloc, folder, TableName::Patrons.file(), &mut paths)?;
    add_paths(alloc, folder, TableName::Items.file(), &mut paths)?;
    add_paths(alloc, folder, TableName::Loans.file(), &mut paths)?;
    add_paths(alloc, folder, TableName::Fees.file(), &mut paths)?;
    add_paths(alloc, folder, TableName::Closed.file(), &mut paths)?;
    add_paths(alloc, folder, TableName::Holds.file(), &mut paths)?;
    add_paths(alloc, folder, LineTable::Answers.file(), &mut paths)?;
    add_paths(alloc, folder, LineTable::Report.file(), &mut paths)?;
    add_paths(alloc, folder, LineTable::Passed.file(), &mut paths)?;
    Ok(paths)
}

/// Adds the paths of a file of a folder: its own, and its temporary one.
fn add_paths(
    alloc: Global,
    folder: &str,
    name: &str,
    paths: &mut Vec<String>,
) -> Result<(), AllocError>
    ensures { OnOk result (map string_bytes paths.new.items
        ≡ map string_bytes paths.old.items ++ both_paths folder.now name.now) }
{
    paths.push(file_in_folder(alloc, folder, name)?)?;
    let part = format!(in alloc; "{folder}/{name}.part")?;
    paths.push(part)?;
    Ok(())
}

/// Looks all these paths up.
fn find_all<O: Outside>(
    outside: &mut O,
    alloc: Global,
    paths: &[String],
) -> Result<Vec<Option<FileId>>, AllocError>
    ensures found { IfOk result
        (λ files. Did (AreFound (map string_bytes paths.now) files.items) (O.log outside.old)
        (O.log outside.new)) }
    ensures stops { OnErr result (Did AreLooks (O.log outside.old) (O.log outside.new)) }
{
    let mut files = Vec::with_capacity(alloc, paths.len())?;
    for path in paths {
        let file = outside.find(path.as_str());
        files.push(file)?;
    }
    Ok(files)
}

/// The first of the files that are read that is among those that are to be written, as the words
/// call it.
fn lost(read: &[Option<FileId>], written: &[Option<FileId>]) -> Option<InputName>
    ensures { result ≡ option_map input_at (position (is_among written.now) read.now) }
{
    match first_among(read, written) {
        Some(place) => Some(input_at(place)),
        None => None,
    }
}

/// The place of the first of some files that is among others.
fn first_among(files: &[Option<FileId>], others: &[Option<FileId>]) -> Option<usize>
    ensures { result ≡ position (is_among others.now) files.now }
{
    files.iter().position(|file| is_among(others, file))
}

/// What the words call the input of this place in the order of reading.
fn input_at(place: usize) -> InputName
    ensures { result ≡ input_at place }
{
    if place == 0 {
        InputName::Policy
    } else if place == 7 {
        InputName::Journal
    } else {
        InputName::Base
    }
}

/// Whether a file is among these, where it was found.
fn is_among(files: &[Option<FileId>], file: &Option<FileId>) -> bool
    ensures { result ≡ is_among files.now file.now }
{
    match file {
        Some(file) => is_one_of(files, file),
        None => false,
    }
}

/// Whether a file is among these.
fn is_one_of(files: &[Option<FileId>], file: &FileId) -> bool
    ensures { result ≡ list_any (is_found file.now) files.now }
{
    files.iter().any(|other| is_found(file, other))
}

/// Whether it is this file that was found.
fn is_found(file: &FileId, other: &Option<FileId>) -> bool
    ensures { result ≡ is_found file.now other.now }
{
    match other {
        Some(other) => file.device == other.device && file.number == other.number,
        None => false,
    }
}
