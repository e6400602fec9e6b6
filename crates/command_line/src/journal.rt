//! The words of the command line of `sip_journal`, read by `clap`.

use crate::parts::{
    Chosen, bare, flag, free_text, optional, program, read, repeated, text_if_given, texts_of,
};
use crate::refusal::Refusal;
use clap::{Arg, ArgAction, ArgMatches, Command, value_parser};
use std::alloc::{AllocError, Global};
use std::convert::AsStr;

const ABOUT: &str =
    "Makes a journal for sip_replay from a server's log: each request with the response to it";

const REQUEST_HELP: &str = "An expression that a line with a request
matches; its one group is the request";

const RESPONSE_HELP: &str = "An expression that a line with a response
matches; its one group is the response";

const CONNECTION_HELP: &str = "An expression that each of these lines
matches; its one group names the connection";

const ESCAPES_HELP: &str = "How the log spells bytes: bare (as they are),
backslash (\\r \\n \\t \\\\ \\x0D), angle (<CR> <LF>), octal (#015),
hexadecimal (two digits a byte)";

const MARK_HELP: &str = "An expression of lines that are read as one
with the next, with a line feed between them";

const LAYOUT_HELP: &str = "What a line has: single (one message), pair (a request
with its response), json (an object of journalctl -o json)";

const TRY_HELP: &str = "Tries all presets on the first 10000 lines of this
log, and prints what each finds, the best first";

const MERGE_HELP: &str = "Reads the logs side by side, by the times of their lines";

const FORCE_HELP: &str = "Writes the journal even if too much in it is
odd, and reads files that don't look like a log";

const DROP_HELP: &str = "Leaves out a request that was sent again: with the bytes
of the one before it, and without a response of its own";

const NAME_HELP: &str = "What names a client: connection (the group of --connection;
if left out), or login (the user and place of its last login)";

const SKEW_HELP: &str = "Adds these seconds to the times of a log, as desk2.log=+3.2;
for logs whose clocks differ, with --merge";

const SPLIT_HELP: &str = "Writes journals of N rows each to the folder of --out:
journal-1.csv, journal-2.csv ..; the numbers of their rows go on";

const OUT_HELP: &str = "The folder of --split, which must exist";

const PRESET_HELP: &str = "A known form of lines: koha-log4perl, koha-syslog, evergreen,
rsyslog, mediator, journald, two-line, pair, arrows,
input-output or received-sent; other options replace parts of it";

const FIRST_HELP: &str = "The number of the first row, 1 to 9999999999; 1 if left out";

const CAPTURE_HELP: &str = "Reads captures of packets (pcap, pcapng) in place of logs;
a connection's name is the client's address and port";

const PORT_HELP: &str = "The server's port in captures; if left out 6001, and on
other ports the side that sends responses is the server";

const LOGS_HELP: &str = "The logs, in the order in which they were written; - is standard input";

const AFTER_HELP: &str = "Example:
  sip_journal --try server.log
  sip_journal --preset arrows server.log > journal.csv
  sip_journal --capture sip.pcap > journal.csv

A line that matches --request is a request, else one that matches --response a response;
all others are skipped. A response belongs to the last request of its connection without
one that it fits by kind and sequence digit, or else to the last of all, if that has none;
a request that gets none in the next 16384 requests has an empty response. The journal
goes to standard output. Standard error names the first responses without a request, the first
skipped lines, the first odd messages (an unknown identifier, a wrong checksum, none where
the client sends some, no end), the first requests that were sent again and the first
responses of another kind than their request, and ends with one line, here in two:
  lines <n> exchanges <n> without-response <n> without-request <n> skipped <n> unknown <n>
  wrong-checksum <n> without-checksum <n> unterminated <n> repeated <n> mismatched <n>
For captures it says packets in place of lines, and goes on:
  gaps <n> parts <n> cut <n> fragments <n> stray <n> foreign <n> foreign-bytes <n>

Status 0: each request has its response, and nothing is odd. 1: some have none, a response
has no request or another one, a message is odd or was sent again, times go back by more than
a minute, or bytes of a capture are missing. 2: the command line, a file or a line is refused,
no preset fits, no exchange was found, more than one message in ten is odd, or more than one
packet in ten is cut; standard error says why. 3: a file cannot be read or written, or memory
ran out.";

/// The logs or captures of a journal, as the words name them, and how they are read.
pub struct JournalOptions {
    /// The name of a known form of lines.
    pub preset: Option<String>,
    /// The log on which all known forms are tried.
    pub tried: Option<String>,
    /// The expression whose group is a request.
    pub request: Option<String>,
    /// The expression whose group is a response.
    pub response: Option<String>,
    /// The expression whose group is the name of the connection.
    pub connection: Option<String>,
    /// The name of the way in which the log spells bytes.
    pub escapes: Option<String>,
    /// The name of what a line has: one message or more.
    pub layout: Option<String>,
    /// The expression of a line that is read as one with the next.
    pub mark: Option<String>,
    /// The number of the first row, of which 1 to 9999999999 are taken.
    pub first: u64,
    /// The port of the server in captures.
    pub port: Option<u16>,
    /// Whether the logs are read side by side, by the times of their lines.
    pub merge: bool,
    /// Whether a journal is written even if too much in it is odd.
    pub force: bool,
    /// Whether requests that were sent again are left out.
    pub drop_repeated: bool,
    /// What names a client: the connection or a login.
    pub name_by: Option<String>,
    /// Logs with seconds that are added to their times, as `NAME=SECONDS`.
    pub skews: Vec<String>,
    /// How many rows each journal has, where there may be several, and the folder of these.
    pub split: Option<u64>,
    pub out: Option<String>,
    /// The captures, in the order in which they are read.
    pub captures: Vec<String>,
    /// The logs, in the order in which they are read; `-` is standard input.
    pub logs: Vec<String>,
}

impl Drop for JournalOptions {
    fn drop(self) {
        let JournalOptions {
            preset: _,
            tried: _,
            request: _,
            response: _,
            connection: _,
            escapes: _,
            layout: _,
            mark: _,
            first: _,
            port: _,
            merge: _,
            force: _,
            drop_repeated: _,
            name_by: _,
            skews: _,
            split: _,
            out: _,
            captures: _,
            logs: _,
        } = self;
    }
}

/// The options of a journal from the words of a command line, of which the first is the program's name; or why there are none.
pub fn journal_options<S: AsStr>(alloc: Global, words: &[S]) -> Result<JournalOptions, Refusal> {
    read(alloc, command(alloc), words)
}

impl Chosen for JournalOptions {
    fn chosen(alloc: Global, matches: &ArgMatches<'_>) -> Result<JournalOptions, AllocError> {
        let mut options = JournalOptions::new(alloc);
        options.read_form(alloc, matches)?;
        options.read_files(alloc, matches)?;
        Ok(options)
    }
}

impl JournalOptions {
    /// The options where no words are given.
    fn new(alloc: Global) -> JournalOptions {
        JournalOptions {
            preset: None,
            tried: None,
            request: None,
            response: None,
            connection: None,
            escapes: None,
            layout: None,
            mark: None,
            first: 1,
            port: None,
            merge: false,
            force: false,
            drop_repeated: false,
            name_by: None,
            skews: Vec::new(alloc),
            split: None,
            out: None,
            captures: Vec::new(alloc),
            logs: Vec::new(alloc),
        }
    }

    /// Copies the options that say which form the lines of a log have.
    fn read_form(&mut self, alloc: Global, matches: &ArgMatches<'_>) -> Result<(), AllocError> {
        self.preset = text_if_given(alloc, matches, "preset")?;
        self.tried = text_if_given(alloc, matches, "try")?;
        self.request = text_if_given(alloc, matches, "request")?;
        self.response = text_if_given(alloc, matches, "response")?;
        self.connection = text_if_given(alloc, matches, "connection")?;
        self.escapes = text_if_given(alloc, matches, "escapes")?;
        self.layout = text_if_given(alloc, matches, "layout")?;
        self.mark = text_if_given(alloc, matches, "mark")?;
        self.name_by = text_if_given(alloc, matches, "name-by")?;
        Ok(())
    }

    /// Copies the paths of logs and captures, and how they are read.
    fn read_files(&mut self, alloc: Global, matches: &ArgMatches<'_>) -> Result<(), AllocError> {
        self.first = matches.get_one::<u64>("first").unwrap_or(1);
        self.port = matches.get_one::<u16>("port");
        self.merge = matches.get_flag("merge");
        self.force = matches.get_flag("force");
        self.drop_repeated = matches.get_flag("drop-repeated");
        self.skews = texts_of(alloc, matches, "skew")?;
        self.split = matches.get_one::<u64>("split");
        self.out = text_if_given(alloc, matches, "out")?;
        self.captures = texts_of(alloc, matches, "capture")?;
        self.logs = texts_of(alloc, matches, "logs")?;
        Ok(())
    }
}

/// The command line of the program.
fn command<'a>(alloc: Global) -> Result<Command<'a>, AllocError> {
    let logs = logs(alloc)?;
    let args = vec![in alloc;
        free_text(alloc, "preset", "NAME", PRESET_HELP),
        free_text(alloc, "try", "F", TRY_HELP),
        free_text(alloc, "request", "RE", REQUEST_HELP),
        free_text(alloc, "response", "RE", RESPONSE_HELP),
        free_text(alloc, "connection", "RE", CONNECTION_HELP),
        free_text(alloc, "escapes", "FORM", ESCAPES_HELP),
        free_text(alloc, "layout", "FORM", LAYOUT_HELP),
        free_text(alloc, "mark", "RE", MARK_HELP),
        optional(alloc, "name-by", "WHAT", NAME_HELP),
        optional(alloc, "first", "N", FIRST_HELP).value_parser(value_parser!(u64)),
        repeated(alloc, "capture", "F", CAPTURE_HELP).num_args(1..),
        optional(alloc, "port", "N", PORT_HELP).value_parser(value_parser!(u16)),
        flag(alloc, "merge", MERGE_HELP),
        repeated(alloc, "skew", "LOG=S", SKEW_HELP),
        optional(alloc, "split", "N", SPLIT_HELP).value_parser(value_parser!(u64)),
        optional(alloc, "out", "DIR", OUT_HELP),
        flag(alloc, "force", FORCE_HELP),
        flag(alloc, "drop-repeated", DROP_HELP),
        logs,
    ]?;
    program(alloc, "sip_journal", ABOUT, AFTER_HELP, args)
}

/// The logs, which have no name before them; they must be given where neither captures nor a log to try is.
fn logs<'a>(alloc: Global) -> Result<Arg<'a>, AllocError> {
    let instead: [&'a str; 2] = ["try", "capture"];
    bare(alloc, "logs", "LOG", LOGS_HELP)
        .action(ArgAction::Append)
        .num_args(1..)
        .required_unless_present_any(&instead)
}
