//! What a line of a log says, by the expressions of the command line.

use crate::chosen::{LogForm, LogLayout};
use journal_run::MakingError;
use log_pairs::{Escapes, unescaped};
use regex::RegexBuilder;
use regex::bytes::{Matcher, Regex};
use std::alloc::{AllocError, Global};

// The places of the expressions in the order in which they are compiled.
const CONNECTION: usize = 0;

const MARK: usize = 1;

const REQUEST: usize = 2;

const RESPONSE: usize = 3;

/// The expression of a connection where none is given: in each line it finds the empty name.
const NO_NAME: &str = "^()";

/// The expressions of a run. `.` and the classes stand for bytes, whatever text they are of.
#[derive(Drop)]
pub struct Expressions {
    /// One at each place; there may be none of a mark.
    compiled: Vec<Option<Regex>>,
    layout: LogLayout,
    escapes: Escapes,
}

impl Expressions {
    /// Compiles those of a form; each has one group, except a mark's.
    pub fn new(alloc: Global, form: LogForm<'_>) -> Result<Expressions, MakingError> {
        let texts = [
            ("--connection", Some(form.connection.unwrap_or(NO_NAME))),
            ("--mark", form.mark),
            ("--request", Some(form.request)),
            ("--response", Some(form.response)),
        ];
        let mut compiled = Vec::new(alloc);
        for (option, text) in &texts {
            compiled.push(compile(alloc, option, *text)?)?;
        }
        Ok(Expressions {
            compiled,
            layout: form.layout,
            escapes: form.escapes,
        })
    }

    /// What searches lines for them.
    pub fn finder(&self, alloc: Global) -> Result<Finder<'_>, AllocError> {
        let mut matchers = Vec::new(alloc);
        for regex in &self.compiled {
            let matcher = match regex {
                Some(regex) => Some(regex.matcher(alloc)?),
                None => None,
            };
            matchers.push(matcher)?;
        }
        Ok(Finder {
            matchers,
            layout: self.layout,
            escapes: self.escapes,
        })
    }
}

/// The expression of an option, if there is one, with as many groups as it is to have: one, but none is asked of a mark's.
fn compile(alloc: Global, option: &str, text: Option<&str>) -> Result<Option<Regex>, MakingError> {
    let Some(text) = text else {
        return Ok(None);
    };
    match RegexBuilder::new(text).unicode(false).build_bytes(alloc) {
        Ok(regex) if option == "--mark" || regex.captures_len() == 2 => Ok(Some(regex)),
        Ok(_) => Err(MakingError::refused(
            alloc,
            "there must be just one group in the expression of",
            option,
        )),
        Err(error) => Err(of_expression(alloc, option, &error)),
    }
}

/// The stop of the expression of an option that is none.
fn of_expression(alloc: Global, option: &str, error: &regex::Error) -> MakingError {
    if *error == regex::Error::OutOfMemory {
        return MakingError::Memory;
    }
    MakingError::refused_text(format!(in alloc; "the expression of {option}: {error}"))
}

/// What a line says: of which connection, and a request, a response, or both.
#[derive(Drop)]
pub struct Said<'l> {
    /// The name of the connection, as the line has it.
    pub connection: &'l [u8],
    /// The messages, without the log's spelling of bytes.
    pub request: Option<Vec<u8>>,
    pub response: Option<Vec<u8>>,
}

/// What searches the lines of a log.
#[derive(Drop)]
pub struct Finder<'r> {
    /// One at the place of each expression.
    matchers: Vec<Option<Matcher<'r>>>,
    layout: LogLayout,
    escapes: Escapes,
}

impl<'r> Finder<'r> {
    /// Whether a line is read as one with the next.
    pub fn is_mark(&mut self, line: &[u8]) -> bool {
        match self.matchers.get_mut(MARK) {
            Some(Some(matcher)) => matcher.is_match(line),
            _ => false,
        }
    }

    /// Whether lines are JSON objects.
    pub fn reads_json(&self) -> bool {
        matches!(self.layout, LogLayout::Json)
    }

    /// What a line says; nothing where it has no message, no name of a connection, or no message that is spelled rightly.
    pub fn find<'l>(
        &mut self,
        alloc: Global,
        line: &'l [u8],
    ) -> Result<Option<Said<'l>>, AllocError> {
        let (request, response) = self.texts(line);
        if request.is_none() && response.is_none() {
            return Ok(None);
        }
        let Some(connection) = self.group(CONNECTION, line) else {
            return Ok(None);
        };
        let said = Said {
            connection,
            request: spelled(alloc, self.escapes, request)?,
            response: spelled(alloc, self.escapes, response)?,
        };
        if said.request.is_none() && said.response.is_none() {
            return Ok(None);
        }
        Ok(Some(said))
    }

    /// The texts of a request and a response in a line. One that has a request has a response where that is the log's form.
    fn texts<'l>(&mut self, line: &'l [u8]) -> (Option<&'l [u8]>, Option<&'l [u8]>) {
        let request = self.group(REQUEST, line);
        let is_pair = matches!(self.layout, LogLayout::Pair);
        if request.is_some() && !is_pair {
            return (request, None);
        }
        match self.group(RESPONSE, line) {
            Some([]) if is_pair => (request, None),
            response => (request, response),
        }
    }

    /// What the group of an expression matches in a line.
    fn group<'l>(&mut self, place: usize, line: &'l [u8]) -> Option<&'l [u8]> {
        match self.matchers.get_mut(place) {
            Some(Some(matcher)) => Some(matcher.captures(line)?.get(1)?.as_bytes()),
            _ => None,
        }
    }
}

/// The message that a text spells, if there is one.
fn spelled(
    alloc: Global,
    escapes: Escapes,
    text: Option<&[u8]>,
) -> Result<Option<Vec<u8>>, AllocError> {
    match text {
        Some(text) => unescaped(alloc, escapes, text),
        None => Ok(None),
    }
}
