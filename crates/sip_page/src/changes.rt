//! What changed: the tables that a run began with against those that it wrote.

use crate::files::{FileRows, rows_of};
use crate::findings::Findings;
use crate::stop::PageError;
use crate::subjects::{SubjectChange, Subjects};
use csv::ByteRecord;
use csv_table::column;
use page_run::{BaseTexts, BothTexts, NameTexts};
use page_words::{Case, CaseNames, ShownField, TextsById, Wording, fill};
use schema::TableName;
use std::alloc::{AllocError, Global};
use std::collections::BTreeMap;

/// How a row reads: what its columns are called here (`thing` is an item that is written as its id alone, and `AA` a patron that is written with
/// the name); whom and what it is about, on two lines; what it says.
struct TableSentence {
    table: TableName,
    /// Other names than those of its header.
    names: Option<&'static [&'static str]>,
    about: &'static str,
    says: &'static str,
}

/// What is said of patrons.
static OF_PATRONS: [TableSentence; 4] = [
    TableSentence {
        table: TableName::Patrons,
        names: None,
        about: "{~id}\nblock",
        says: "{~blocked}",
    },
    TableSentence {
        table: TableName::Loans,
        names: None,
        about: "{~patron}\nloan of {~item}",
        says: "until {~due}, renewals {~renewals}",
    },
    TableSentence {
        table: TableName::Fees,
        names: None,
        about: "{~patron}\nfee {~id}",
        says: "{~type} {~amount}, paid {~paid}",
    },
    TableSentence {
        table: TableName::Holds,
        names: None,
        about: "{~patron}\nhold on {~item}",
        says: "waits, pickup {~pickup}",
    },
];

/// What is said of items.
static OF_ITEMS: [TableSentence; 3] = [
    TableSentence {
        table: TableName::Items,
        names: None,
        about: "{~id}\nproperties",
        says: "{~properties}",
    },
    TableSentence {
        table: TableName::Loans,
        names: Some(&["AA", "thing", "due", "renewals"]),
        about: "{~thing}\nloan",
        says: "to {~AA} until {~due}, renewals {~renewals}",
    },
    TableSentence {
        table: TableName::Holds,
        names: Some(&["thing", "AA", "pickup"]),
        about: "{~thing}\nhold of {~AA}",
        says: "waits, pickup {~pickup}",
    },
];

/// What the items and the patrons of a folder are called.
pub fn names_of(alloc: Global, texts: &NameTexts) -> Result<CaseNames, PageError> {
    Ok(CaseNames {
        titles: texts_of(alloc, TableName::Items, &texts.items)?,
        patrons: texts_of(alloc, TableName::Patrons, &texts.patrons)?,
    })
}

/// The second fields of the rows of a table, by their first ones.
fn texts_of(alloc: Global, table: TableName, text: &[u8]) -> Result<TextsById, PageError> {
    let mut texts = BTreeMap::new(alloc);
    for row in &rows_of(alloc, FileRows::of_records(alloc, table, text)?)? {
        let id = Vec::from_slice(alloc, column(row, 0))?;
        texts.insert(id, Vec::from_slice(alloc, column(row, 1))?)?;
    }
    Ok(texts)
}

/// Refuses tables of a base that has other patrons or items than the output: no message makes or removes one.
pub fn check_base(alloc: Global, base: &NameTexts, names: &CaseNames) -> Result<(), PageError> {
    let patrons = texts_of(alloc, TableName::Patrons, &base.patrons)?;
    let titles = texts_of(alloc, TableName::Items, &base.items)?;
    check_same(alloc, TableName::Patrons.file(), &patrons, &names.patrons)?;
    check_same(alloc, TableName::Items.file(), &titles, &names.titles)
}

/// Refuses rows that differ between the base and the output.
fn check_same(
    alloc: Global,
    file: &'static str,
    base: &TextsById,
    out: &TextsById,
) -> Result<(), PageError> {
    for (id, text) in base {
        if out.get(id.as_slice()) != Some(text) {
            return Err(PageError::of_row(alloc, file, id));
        }
    }
    for id in out.keys() {
        if !base.contains_key(id.as_slice()) {
            return Err(PageError::of_row(alloc, file, id));
        }
    }
    Ok(())
}

/// Gives each change of the run to the patron and to the item that it is of, and returns those of patrons that no wrong response is about.
pub fn note_changes(
    alloc: Global,
    after: &NameTexts,
    base: &BaseTexts,
    names: &CaseNames,
    findings: &mut Findings,
) -> Result<Vec<SubjectChange>, PageError> {
    let items = (base.names.items.as_slice(), after.items.as_slice());
    let patrons = (base.names.patrons.as_slice(), after.patrons.as_slice());
    let [loans, holds, fees] = [both(&base.loans), both(&base.holds), both(&base.fees)];
    let of_items = changes_of(alloc, &OF_ITEMS, &[items, loans, holds], names)?;
    share(alloc, of_items, &mut findings.items)?;
    let of_patrons = changes_of(alloc, &OF_PATRONS, &[patrons, loans, fees, holds], names)?;
    share(alloc, of_patrons, &mut findings.patrons)
}

/// A table before the run, and after it.
fn both(texts: &BothTexts) -> (&[u8], &[u8]) {
    (texts.before.as_slice(), texts.after.as_slice())
}

/// What changed: the texts of `SubjectChange`, where what it says may be the old text alone.
type Changes = BTreeMap<Vec<u8>, Vec<u8>>;

/// How tables differ before the run and after it: each with the sentence of its rows.
fn changes_of(
    alloc: Global,
    sentences: &[TableSentence],
    tables: &[(&[u8], &[u8])],
    names: &CaseNames,
) -> Result<Changes, PageError> {
    let mut changes = BTreeMap::new(alloc);
    for (sentence, (before, after)) in sentences.iter().zip(tables) {
        note_rows(alloc, &mut changes, sentence, before, names, false)?;
        note_rows(alloc, &mut changes, sentence, after, names, true)?;
    }
    Ok(changes)
}

/// Takes in what each row of a table says, before or after.
fn note_rows(
    alloc: Global,
    changes: &mut Changes,
    sentence: &TableSentence,
    text: &[u8],
    names: &CaseNames,
    after: bool,
) -> Result<(), PageError> {
    if text.is_empty() {
        return Ok(());
    }
    for row in &rows_of(alloc, FileRows::of_records(alloc, sentence.table, text)?)? {
        note_row(alloc, changes, sentence, row, names, after)?;
    }
    Ok(())
}

/// Takes in what a row says, before or after.
fn note_row(
    alloc: Global,
    changes: &mut Changes,
    sentence: &TableSentence,
    row: &ByteRecord,
    names: &CaseNames,
    after: bool,
) -> Result<(), AllocError> {
    let mut case = Case::new(alloc, b"", b"");
    let columns = sentence.names.unwrap_or(sentence.table.header());
    add_columns(&mut case.right, columns, row)?;
    let about = filled(alloc, sentence.about, &case, names)?;
    let says = filled(alloc, sentence.says, &case, names)?;
    if after {
        return compare(alloc, changes, about, &says);
    }
    changes.insert(about, says)?;
    Ok(())
}

/// A text with its braces filled in.
fn filled(
    alloc: Global,
    words: &str,
    case: &Case<'_>,
    names: &CaseNames,
) -> Result<Vec<u8>, AllocError> {
    let mut out = Wording::new(alloc);
    fill(&mut out, words.as_bytes(), case, &case.right, names);
    out.finish()
}

/// Adds the columns of a row as fields of these names.
fn add_columns<'r>(
    fields: &mut Vec<ShownField<'r>>,
    names: &[&'static str],
    row: &'r ByteRecord,
) -> Result<(), AllocError> {
    for (position, name) in names.iter().enumerate() {
        fields.push(ShownField {
            name: name.as_bytes(),
            value: column(row, position),
        })?;
    }
    Ok(())
}

/// Compares a new text with the old one, which is dropped where they agree.
fn compare(
    alloc: Global,
    changes: &mut Changes,
    about: Vec<u8>,
    says: &[u8],
) -> Result<(), AllocError> {
    let mut both = match changes.remove(about.as_slice()) {
        Some(before) => before,
        None => Vec::from_slice(alloc, b"none")?,
    };
    if both.as_slice() == says {
        return Ok(());
    }
    both.push(b'\n')?;
    both.extend_from_slice(says)?;
    changes.insert(about, both)?;
    Ok(())
}

/// Gives each change to its patron or item, and returns those of others.
fn share(
    alloc: Global,
    changes: Changes,
    subjects: &mut Subjects,
) -> Result<Vec<SubjectChange>, PageError> {
    let mut others = Vec::new(alloc);
    for (about, says) in changes {
        let change = SubjectChange { about, says };
        let [id, ..] = change.texts();
        match subjects.get_mut(id) {
            Some(subject) => subject.changes.push(change)?,
            None => others.push(change)?,
        }
    }
    Ok(others)
}
