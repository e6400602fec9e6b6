//! The files of a run, all of which are read before a page is made.

ghost use Rattle.std.specs.Prelude.{◌∷◌, [], IfErr, IfOk, string_bytes};
ghost use Rattle.outside.specs.Events.{Did};
ghost use Rattle.outside.specs.Files.{in_folder};
ghost use Rattle.outside.specs.Reading.{AreRead, StopsReading};
ghost use Rattle.outside.specs.declared.reading.IfMissing.TheVariants.{Fails};
ghost use Rattle.schema.specs.Names.{file_of, line_file};
ghost use Rattle.page_run.specs.Sources.{base_files, base_texts, both_in, both_texts, changed_files, changed_texts, file_of_why, files_of, name_texts, names_in, result_files, result_texts, text_of_why, texts_of};

use crate::texts::{BaseTexts, BothTexts, FateTexts, NameTexts, PageTexts};
use command_line::PageOptions;
use outside::{FileStop, IfMissing, Outside, read_file, read_in};
use schema::{LineTable, TableName};
use std::alloc::Global;

/// Reads each file that the words ask for, whole and in their order, and nothing else; or says
/// which one can't be read and why.
pub fn read_all<O: Outside>(
    outside: &mut O,
    alloc: Global,
    options: &PageOptions,
) -> Result<PageTexts, FileStop>
    ensures read { IfOk result
        (λ texts. Did (AreRead (files_of options.now) (texts_of texts)) (O.log outside.old)
        (O.log outside.new)) }
    ensures stops { IfErr result
        (λ stop. Did (StopsReading (files_of options.now) stop) (O.log outside.old)
        (O.log outside.new)) }
{
    let names = read_names(outside, alloc, options.out.as_str())?;
    let result = read_result(outside, alloc, options)?;
    let why = read_why(outside, alloc, &options.why)?;
    let base = read_base(outside, alloc, &options.base, options.out.as_str())?;
    Ok(PageTexts {
        names,
        result,
        why,
        base,
    })
}

/// Reads the journal, and the tables in which the run says what became of each line.
fn read_result<O: Outside>(
    outside: &mut O,
    alloc: Global,
    options: &PageOptions,
) -> Result<FateTexts, FileStop>
    ensures read { IfOk result
        (λ texts. Did (AreRead (result_files options.now) (result_texts texts)) (O.log outside.old)
        (O.log outside.new)) }
    ensures stops { IfErr result
        (λ stop. Did (StopsReading (result_files options.now) stop) (O.log outside.old)
        (O.log outside.new)) }
{
    let out = options.out.as_str();
    let journal = read_file(outside, alloc, options.journal.as_str(), IfMissing::Fails)?;
    let answers = read_lines(outside, alloc, out, LineTable::Answers)?;
    let passed = read_lines(outside, alloc, out, LineTable::Passed)?;
    let report = read_lines(outside, alloc, out, LineTable::Report)?;
    Ok(FateTexts {
        journal,
        answers,
        passed,
        report,
    })
}

/// Reads the table of reasons, where the words name one.
fn read_why<O: Outside>(
    outside: &mut O,
    alloc: Global,
    path: &Option<String>,
) -> Result<Option<Vec<u8>>, FileStop>
    ensures read { IfOk result
        (λ text. Did (AreRead (file_of_why path.now) (text_of_why text)) (O.log outside.old)
        (O.log outside.new)) }
    ensures stops { IfErr result
        (λ stop. Did (StopsReading (file_of_why path.now) stop) (O.log outside.old)
        (O.log outside.new)) }
{
    match path {
        Some(path) => match read_file(outside, alloc, path.as_str(), IfMissing::Fails) {
            Ok(text) => Ok(Some(text)),
            Err(stop) => Err(stop),
        },
        None => Ok(None),
    }
}

/// Reads the tables that the run began with, and each that it may have changed, where the words
/// name a base.
fn read_base<O: Outside>(
    outside: &mut O,
    alloc: Global,
    base: &Option<String>,
    out: &str,
) -> Result<Option<BaseTexts>, FileStop>
    ensures read { IfOk result
        (λ texts. Did (AreRead (base_files base.now out.now) (base_texts texts)) (O.log outside.old)
        (O.log outside.new)) }
    ensures stops { IfErr result
        (λ stop. Did (StopsReading (base_files base.now out.now) stop) (O.log outside.old)
        (O.log outside.new)) }
{
    match base {
        Some(base) => match read_changed(outside, alloc, base.as_str(), out) {
            Ok(texts) => Ok(Some(texts)),
            Err(stop) => Err(stop),
        },
        None => Ok(None),
    }
}

/// Reads the names of a base, and each table of it that a run may have changed, before the run and
/// after it.
fn read_changed<O: Outside>(
    outside: &mut O,
    alloc: Global,
    base: &str,
    out: &str,
) -> Result<BaseTexts, FileStop>
    ensures read { IfOk result
        (λ texts. Did (AreRead (changed_files base.now out.now) (changed_texts texts))
        (O.log outside.old) (O.log outside.new)) }
    ensures stops { IfErr result
        (λ stop. Did (StopsReading (changed_files base.now out.now) stop) (O.log outside.old)
        (O.log outside.new)) }
{
    let names = read_names(outside, alloc, base)?;
    let loans = read_both(
        outside,
        alloc,
        base,
        out,
        TableName::Loans,
        IfMissing::Fails,
    )?;
    let holds = read_both(
        outside,
        alloc,
        base,
        out,
        TableName::Holds,
        IfMissing::Empty,
    )?;
    let fees = read_both(outside, alloc, base, out, TableName::Fees, IfMissing::Fails)?;
    Ok(BaseTexts {
        names,
        loans,
        holds,
        fees,
    })
}

/// Reads the tables of a folder that name items and patrons.
fn read_names<O: Outside>(
    outside: &mut O,
    alloc: Global,
    folder: &str,
) -> Result<NameTexts, FileStop>
    ensures read { IfOk result
        (λ texts. Did (AreRead (names_in folder.now) (name_texts texts)) (O.log outside.old)
        (O.log outside.new)) }
    ensures stops { IfErr result
        (λ stop. Did (StopsReading (names_in folder.now) stop) (O.log outside.old)
        (O.log outside.new)) }
{
    let items = read_table(outside, alloc, folder, TableName::Items, IfMissing::Fails)?;
    let patrons = read_table(outside, alloc, folder, TableName::Patrons, IfMissing::Fails)?;
    Ok(NameTexts { items, patrons })
}

/// Reads a table before a run and after it.
fn read_both<O: Outside>(
    outside: &mut O,
    alloc: Global,
    base: &str,
    out: &str,
    table: TableName,
    missing: IfMissing,
) -> Result<BothTexts, FileStop>
    ensures read { IfOk result
        (λ texts. Did (AreRead (both_in base.now out.now (file_of table) missing)
        (both_texts texts)) (O.log outside.old) (O.log outside.new)) }
    ensures stops { IfErr result
        (λ stop. Did (StopsReading (both_in base.now out.now (file_of table) missing) stop)
        (O.log outside.old) (O.log outside.new)) }
{
    let before = read_table(outside, alloc, base, table, missing)?;
    let after = read_table(outside, alloc, out, table, missing)?;
    Ok(BothTexts { before, after })
}

/// Reads a table of records of a folder.
fn read_table<O: Outside>(
    outside: &mut O,
    alloc: Global,
    folder: &str,
    table: TableName,
    missing: IfMissing,
) -> Result<Vec<u8>, FileStop>
    ensures read { IfOk result
        (λ text. Did (AreRead ((in_folder folder.now (file_of table), missing) ∷ [])
        (text.items ∷ [])) (O.log outside.old) (O.log outside.new)) }
    ensures stops { IfErr result
        (λ stop. Did (StopsReading ((in_folder folder.now (file_of table), missing) ∷ []) stop)
        (O.log outside.old) (O.log outside.new)) }
{
    read_in(outside, alloc, folder, table.file(), missing)
}

/// Reads a result table of a folder.
fn read_lines<O: Outside>(
    outside: &mut O,
    alloc: Global,
    folder: &str,
    table: LineTable,
) -> Result<Vec<u8>, FileStop>
    ensures read { IfOk result
        (λ text. Did (AreRead ((in_folder folder.now (line_file table), Fails) ∷ [])
        (text.items ∷ [])) (O.log outside.old) (O.log outside.new)) }
    ensures stops { IfErr result
        (λ stop. Did (StopsReading ((in_folder folder.now (line_file table), Fails) ∷ []) stop)
        (O.log outside.old) (O.log outside.new)) }
{
    read_in(outside, alloc, folder, table.file(), IfMissing::Fails)
}
