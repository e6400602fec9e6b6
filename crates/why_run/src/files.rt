//! The files of a run, all of which are read before anything is judged.

ghost use Rattle.std.specs.Prelude.{◌≡◌, ◌∷◌, [], IfErr, IfOk};
ghost use Rattle.outside.specs.Events.{Did};
ghost use Rattle.outside.specs.Files.{in_folder};
ghost use Rattle.outside.specs.Reading.{AreRead, StopsReading};
ghost use Rattle.schema.specs.Names.{file_of};
ghost use Rattle.why_run.specs.Sources.{file_if_named, files_of, table_texts, tables_if_named, tables_in, text_if_named, texts_if_named, texts_of};

use crate::texts::WhyTexts;
use command_line::WhyOptions;
use outside::{FileStop, IfMissing, Outside, read_file, read_in};
use schema::{TableName, Tables};
use std::alloc::Global;

/// Reads all files that the words name.
pub fn read_all<O: Outside>(
    outside: &mut O,
    alloc: Global,
    options: &WhyOptions,
) -> Result<WhyTexts, FileStop>
    ensures read { IfOk result (λ texts. Did (AreRead (files_of options.now) (texts_of texts)) (O.log outside.old) (O.log outside.new)) }
    ensures stops { IfErr result (λ stop. Did (StopsReading (files_of options.now) stop) (O.log outside.old) (O.log outside.new)) }
{
    let policy = read_file(outside, alloc, options.policy.as_str(), IfMissing::Fails)?;
    let base = read_tables(outside, alloc, options.base.as_str())?;
    let journal = read_file(outside, alloc, options.journal.as_str(), IfMissing::Fails)?;
    let report = read_if_named(outside, alloc, &options.report)?;
    let out = read_tables_if_named(outside, alloc, &options.out)?;
    Ok(WhyTexts {
        policy,
        base,
        journal,
        report,
        out,
    })
}

/// Reads a file, where the words name one.
fn read_if_named<O: Outside>(
    outside: &mut O,
    alloc: Global,
    path: &Option<String>,
) -> Result<Option<Vec<u8>>, FileStop>
    ensures read { IfOk result (λ text. Did (AreRead (file_if_named path.now) (text_if_named text)) (O.log outside.old) (O.log outside.new)) }
    ensures stops { IfErr result (λ stop. Did (StopsReading (file_if_named path.now) stop) (O.log outside.old) (O.log outside.new)) }
{
    match path {
        Some(path) => match read_file(outside, alloc, path.as_str(), IfMissing::Fails) {
            Ok(text) => Ok(Some(text)),
            Err(stop) => Err(stop),
        },
        None => Ok(None),
    }
}

/// Reads the tables of a folder, where the words name one.
fn read_tables_if_named<O: Outside>(
    outside: &mut O,
    alloc: Global,
    folder: &Option<String>,
) -> Result<Option<Tables>, FileStop>
    ensures read { IfOk result (λ texts. Did (AreRead (tables_if_named folder.now) (texts_if_named texts)) (O.log outside.old) (O.log outside.new)) }
    ensures stops { IfErr result (λ stop. Did (StopsReading (tables_if_named folder.now) stop) (O.log outside.old) (O.log outside.new)) }
{
    match folder {
        Some(folder) => match read_tables(outside, alloc, folder.as_str()) {
            Ok(texts) => Ok(Some(texts)),
            Err(stop) => Err(stop),
        },
        None => Ok(None),
    }
}

/// Reads the six tables of a folder.
fn read_tables<O: Outside>(outside: &mut O, alloc: Global, folder: &str) -> Result<Tables, FileStop>
    ensures read { IfOk result (λ texts. Did (AreRead (tables_in folder.now) (table_texts texts)) (O.log outside.old) (O.log outside.new)) }
    ensures stops { IfErr result (λ stop. Did (StopsReading (tables_in folder.now) stop) (O.log outside.old) (O.log outside.new)) }
{
    let patrons = read_table(outside, alloc, folder, TableName::Patrons, IfMissing::Fails)?;
    let items = read_table(outside, alloc, folder, TableName::Items, IfMissing::Fails)?;
    let loans = read_table(outside, alloc, folder, TableName::Loans, IfMissing::Fails)?;
    let fees = read_table(outside, alloc, folder, TableName::Fees, IfMissing::Fails)?;
    let closed = read_table(outside, alloc, folder, TableName::Closed, IfMissing::Fails)?;
    let holds = read_table(outside, alloc, folder, TableName::Holds, IfMissing::Empty)?;
    Ok(Tables {
        patrons,
        items,
        loans,
        fees,
        closed,
        holds,
    })
}

/// Reads a table of a folder.
fn read_table<O: Outside>(
    outside: &mut O,
    alloc: Global,
    folder: &str,
    table: TableName,
    missing: IfMissing,
) -> Result<Vec<u8>, FileStop>
    ensures read { IfOk result (λ text. Did (AreRead ((in_folder folder.now (file_of table), missing) ∷ []) (text.items ∷ [])) (O.log outside.old) (O.log outside.new)) }
    ensures stops { IfErr result (λ stop. Did (StopsReading ((in_folder folder.now (file_of table), missing) ∷ []) stop) (O.log outside.old) (O.log outside.new)) }
{
    read_in(outside, alloc, folder, table.file(), missing)
}
