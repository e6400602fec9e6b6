//! The whole run: words, files, what differs and the status.

use crate::reading::read_rows;
use crate::stop::{DiffError, FAILED};
use crate::tables::{ComparedTable, TABLES, ValueSource, has_column};
use command_line::{DiffOptions, Refusal, diff_options};
use std::alloc::{AllocError, Global};
use std::io::Write;
use std::rt::Files;
use table_diff::{DiffFault, DiffRow, Report, TableForm};

/// The status of two folders in which nothing differs.
const SAME: u8 = 0;

/// The status of two folders in which something differs.
const DIFFERS: u8 = 1;

/// Reads the words, of which the first is the program's name, then the tables, and writes each
/// difference between them to `out`. Gives the status of the program:
///
/// - 0 where nothing differs, and for help, whose text goes to `out`;
/// - 1 where something does;
/// - 2 where the command line or a table is refused;
/// - 3 where a file can't be read, `out` takes no text, or memory ran out.
///
/// What stopped the run is printed on `err`.
pub fn run<R: Files + AllocGlobal, W: Write, E: Write>(
    rt: &R,
    words: &[String],
    out: &mut W,
    err: &mut E,
) -> u8 {
    let ended = match diff_options(rt.alloc(), words) {
        Ok(options) => compare(rt, &options, out),
        Err(Refusal::Help(text)) => Ok(print_help(out, text.as_str())),
        Err(Refusal::Words(text)) => Err(DiffError::Refused(text)),
        Err(Refusal::Memory) => Err(DiffError::Memory),
    };
    match ended {
        Ok(status) => status,
        Err(stop) => stop.say_why(err),
    }
}

fn print_help<W: Write>(out: &mut W, text: &str) -> u8 {
    match out.write_all(text.as_bytes()) {
        Ok(()) => SAME,
        Err(_) => FAILED,
    }
}

/// Compares two folders, writes what differs, and gives the status that says whether anything does.
fn compare<R: Files + AllocGlobal, W: Write>(
    rt: &R,
    options: &DiffOptions,
    out: &mut W,
) -> Result<u8, DiffError> {
    check_columns(rt.alloc(), &options.leave)?;
    let text = differences(rt, options)?;
    if text == Report::new(rt.alloc())?.finish()? {
        return Ok(SAME);
    }
    match out.write_all(&text) {
        Ok(()) => Ok(DIFFERS),
        Err(_) => Err(DiffError::Output),
    }
}

/// Refuses the first word that names no column.
fn check_columns(alloc: Global, leave: &[String]) -> Result<(), DiffError> {
    for word in leave {
        if !has_column(word.as_str()) {
            return Err(DiffError::refused(alloc, "no such column is compared", word.as_str()));
        }
    }
    Ok(())
}

/// The text of what differs in any table.
fn differences<R: Files + AllocGlobal>(
    rt: &R,
    options: &DiffOptions,
) -> Result<Vec<u8>, DiffError> {
    let mut report = Report::new(rt.alloc())?;
    for table in &TABLES {
        report = with_table(rt, report, options, table)?;
    }
    Ok(report.finish()?)
}

/// The report with what differs in a table.
fn with_table<R: Files + AllocGlobal>(
    rt: &R,
    report: Report,
    options: &DiffOptions,
    table: &ComparedTable,
) -> Result<Report, DiffError> {
    let values = values_compared(rt.alloc(), table, &options.leave)?;
    let sides = Sides::read(rt, options, table, &values)?;
    with_sides(rt.alloc(), report, table, &values, &sides)
}

/// The rows of a table in both folders.
struct Sides {
    left: Vec<DiffRow>,
    right: Vec<DiffRow>,
}

impl Drop for Sides {
    fn drop(self) {
        let Sides { left: _, right: _ } = self;
    }
}

impl Sides {
    fn read<R: Files + AllocGlobal>(
        rt: &R,
        options: &DiffOptions,
        table: &ComparedTable,
        values: &[ValueSource],
    ) -> Result<Sides, DiffError> {
        let left = read_rows(rt, options.left.as_str(), table, values)?;
        let right = read_rows(rt, options.right.as_str(), table, values)?;
        Ok(Sides { left, right })
    }
}

/// The report with what differs between the rows of a table.
fn with_sides(
    alloc: Global,
    report: Report,
    table: &ComparedTable,
    values: &[ValueSource],
    sides: &Sides,
) -> Result<Report, DiffError> {
    let mut columns = Vec::new(alloc);
    for value in values {
        columns.push(table.column(*value))?;
    }
    let form = TableForm {
        table: table.table.word(),
        columns: &columns,
        renamed: table.renamed,
    };
    match report.with(alloc, &form, &sides.left, &sides.right) {
        Ok(report) => Ok(report),
        Err(DiffFault::Memory) => Err(DiffError::Memory),
        Err(DiffFault::Double) => Err(DiffError::refused(
            alloc,
            table.table.word(),
            "an id stands twice",
        )),
    }
}

/// The values of a table but those of the columns that are left.
fn values_compared(
    alloc: Global,
    table: &ComparedTable,
    leave: &[String],
) -> Result<Vec<ValueSource>, AllocError> {
    let mut values = Vec::new(alloc);
    for value in table.values {
        if !leave
            .iter()
            .any(|word| table.is_named(word.as_str(), *value))
        {
            values.push(*value)?;
        }
    }
    Ok(values)
}
