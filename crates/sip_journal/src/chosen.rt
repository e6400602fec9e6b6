//! What the options of the command line choose.

use crate::presets::{PLAIN, PRESETS};
use command_line::JournalOptions;
use journal_run::MakingError;
use log_pairs::Escapes;
use sip_reader::LINE_NUMBER_MAX;
use std::alloc::{AllocError, Global};

/// What a run is to do.
#[derive(Clone, Copy)]
pub enum JournalTask<'o> {
    /// A journal of logs whose lines have this form.
    Logs(LogForm<'o>),
    /// A journal of captures.
    Captures,
    /// A table that says how well each preset fits this log.
    Try(&'o str),
}

/// The form of the lines of a log.
#[derive(Clone, Copy)]
pub struct LogForm<'o> {
    /// The expression whose group is a request.
    pub request: &'o str,
    /// The expression whose group is a response.
    pub response: &'o str,
    /// The expression whose group is the name of the connection; without one all lines are of one connection of no name.
    pub connection: Option<&'o str>,
    /// The expression of a line that is read as one with the next.
    pub mark: Option<&'o str>,
    pub layout: LogLayout,
    /// How the log spells bytes.
    pub escapes: Escapes,
}

/// What a line has.
#[derive(Clone, Copy)]
pub enum LogLayout {
    /// One message, or none.
    Single,
    /// A request, and the response to it if there was one.
    Pair,
    /// A JSON object of the system's journal, which is read as the line that `journalctl` makes from it.
    Json,
}

static LAYOUTS: [(&str, LogLayout); 3] = [
    ("single", LogLayout::Single),
    ("pair", LogLayout::Pair),
    ("json", LogLayout::Json),
];

/// What clients are named by.
static NAMES: [&str; 2] = ["connection", "login"];

static SPELLINGS: [(&str, Escapes); 5] = [
    ("bare", Escapes::Bare),
    ("backslash", Escapes::Backslash),
    ("angle", Escapes::Angle),
    ("hexadecimal", Escapes::Hexadecimal),
    ("octal", Escapes::Octal),
];

/// What the options ask for.
pub fn task_of(alloc: Global, options: &JournalOptions) -> Result<JournalTask<'_>, MakingError> {
    if let Some(log) = text(&options.tried) {
        return Ok(JournalTask::Try(log));
    }
    let task = if options.captures.is_empty() {
        JournalTask::Logs(form_of(alloc, options)?)
    } else if options.logs.is_empty() {
        JournalTask::Captures
    } else {
        let what = "captures are read alone, without";
        return Err(MakingError::refused(alloc, what, "LOG"));
    };
    check_words(alloc, options)?;
    if options.first == 0 || options.first > LINE_NUMBER_MAX {
        let what = "--first must be 1 to";
        return Err(MakingError::refused(alloc, what, "9999999999"));
    }
    Ok(task)
}

/// Whether clients are named by their logins.
pub fn is_by_login(options: &JournalOptions) -> bool {
    text(&options.name_by) == Some(NAMES[1])
}

/// Refuses a way of naming clients that is none, and half of what names several journals.
fn check_words(alloc: Global, options: &JournalOptions) -> Result<(), MakingError> {
    if let Some(word) = text(&options.name_by) {
        if !NAMES.contains(&word) {
            let what = "--name-by is connection or login, and not";
            return Err(MakingError::refused(alloc, what, word));
        }
    }
    match (options.split, text(&options.out)) {
        (Some(1..), Some(_)) | (None, None) => Ok(()),
        _ => {
            let what = "--split must be 1 or more, with the folder of";
            Err(MakingError::refused(alloc, what, "--out"))
        }
    }
}

/// The form of lines that the options and the preset say together: what else is given counts instead of the preset's.
fn form_of(alloc: Global, options: &JournalOptions) -> Result<LogForm<'_>, MakingError> {
    let mut form = match text(&options.preset) {
        Some(name) => named(alloc, &PRESETS, "no preset is named", name)?,
        None if options.request.is_some() && options.response.is_some() => PLAIN,
        None => {
            let what = "--preset is needed, or";
            return Err(MakingError::refused(alloc, what, "--request and --response"));
        }
    };
    form.request = text(&options.request).unwrap_or(form.request);
    form.response = text(&options.response).unwrap_or(form.response);
    form.connection = text(&options.connection).or(form.connection);
    form.mark = text(&options.mark).or(form.mark);
    if let Some(word) = text(&options.layout) {
        form.layout = named(alloc, &LAYOUTS, "no layout of lines is named", word)?;
    }
    if let Some(word) = text(&options.escapes) {
        form.escapes = named(alloc, &SPELLINGS, "no way of spelling bytes is named", word)?;
    }
    Ok(form)
}

fn text(option: &Option<String>) -> Option<&str> {
    option.as_ref().map(|text| text.as_str())
}

/// What a word names in a table; it is refused with all names of the table if it is none of them.
fn named<T: Copy>(
    alloc: Global,
    table: &[(&'static str, T)],
    what: &str,
    word: &str,
) -> Result<T, MakingError> {
    for (name, value) in table {
        if *name == word {
            return Ok(*value);
        }
    }
    Err(MakingError::refused_text(refusal(alloc, table, what, word)))
}

/// The text that refuses a word, with all names of a table.
fn refusal<T: Copy>(
    alloc: Global,
    table: &[(&'static str, T)],
    what: &str,
    word: &str,
) -> Result<String, AllocError> {
    let mut text = format!(in alloc; "{what} {word}; there are")?;
    for (at, (name, _)) in table.iter().enumerate() {
        let before = if at == 0 { " " } else { ", " };
        write!(text, "{before}{name}")?;
    }
    Ok(text)
}
