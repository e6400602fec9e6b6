//! The words of the command line of `sip_replay`, read by `clap`.
ghost use Rattle.std.specs.Prelude.{◌≡◌, IfErr, IfOk, map, true};
ghost use Rattle.clap.specs.Words.{IsParsedFrom, app_of, found_of, matches_of, rows_of, takes};
ghost use Rattle.command_line.specs.CommandLine.{GivesOptions, HasPaths, sip_replay_line};
ghost use Rattle.command_line.specs.Refusals.{EndsBy};
ghost use Rattle.command_line.specs.declared.refusal.Refusal.TheVariants.{Memory};

use crate::chosen::Options;
use crate::parts::{Chosen, flag, number, number_or, path, program, read, text_of};
use crate::refusal::Refusal;
use clap::{ArgMatches, Command};
use std::alloc::{AllocError, Global};
use std::convert::AsStr;

const DEFAULT_WORKERS: u32 = 4;

const ABOUT: &str = "Replays a journal of SIP2 messages over the tables of a library's circulation,
and reports where the recorded responses differ from what the rules give";

const POLICY_HELP: &str = "The rules of the library, a TOML file: institution,
currency, closed days, patron classes, media types";

const BASE_HELP: &str = "The folder of the tables before the first message: patrons.csv, items.csv,
loans.csv, fees.csv, closed.csv and, where there are holds, holds.csv";

const JOURNAL_HELP: &str = "The messages, a CSV file with the columns line,
connection, request, response; - for standard input";

const OUT_HELP: &str = "An existing folder: it gets the six tables after the
last message, and answers.csv, report.csv and passed.csv";

const WORKERS_HELP: &str = "How many workers process messages, each in a thread of its own,
1 to 64; 4 if left out. The output is the same with any number";

const EXPLAIN_HELP: &str = "Where an input is refused or a file fails, prints a second line on
standard error that says what to do; on a terminal it is always printed";

const CHECK_HELP: &str = "Only checks the inputs: lists the rows that break
a rule, the first 100 of them, and writes no file";

const AS_RECORDED_HELP: &str = "Carries out what the recorded responses say was done,
so that the tables have what happened at the machines";

const AFTER_HELP: &str = "Example:
  sip_replay --policy policy.toml --base tables --journal journal.csv --out result

answers.csv has the response to each message, report.csv a row for each
recorded response that differs, with what differs in it, passed.csv each
message that has no answer, with the reason. Standard output gets one line:
  lines <n> answered <n> passed <n> differences <n>

With --check standard output gets a line for each row that
breaks a rule instead, or one line that says what was read.

Status 0: no recorded response differs. 1: some do. 2: the command
line, the policy, a table or the journal is refused, and standard error
says why. 3: a file cannot be read or written, or memory ran out.";

/// The options from the words of a command line, of which the first is the program's name; or why there are none.
pub fn options<S: AsStr>(alloc: Global, words: &[S]) -> Result<Options, Refusal>
    ensures given { IfOk result (GivesOptions (matches_of sip_replay_line (map S.text words.now))) }
    ensures accepts { IfErr result (λ e. takes sip_replay_line (map S.text words.now) ≡ true
        → e ≡ Memory) }
    ensures ends { EndsBy sip_replay_line (map S.text words.now) result }
{
    read(alloc, command(alloc), words)
}

impl Chosen for Options {
    ghost gives = { λ m o. HasPaths (found_of m) → GivesOptions (rows_of (found_of m)) o };

    fn chosen(alloc: Global, matches: &ArgMatches<'_>) -> Result<Options, AllocError> {
        let policy = text_of(alloc, matches, "policy")?;
        let base = text_of(alloc, matches, "base")?;
        let journal = text_of(alloc, matches, "journal")?;
        let out = text_of(alloc, matches, "out")?;
        Ok(Options {
            policy,
            base,
            journal,
            out,
            workers: number_or(matches, "workers", DEFAULT_WORKERS),
            explain: matches.get_flag("explain"),
            check: matches.get_flag("check"),
            as_recorded: matches.get_flag("as-recorded"),
        })
    }
}

/// The command line of the program.
fn command<'a>(alloc: Global) -> Result<Command<'a>, AllocError>
    ensures line { IfOk result (λ c. app_of c ≡ sip_replay_line) }
    ensures paths { IfOk result (λ c. (m : ArgMatches) → IsParsedFrom c m → HasPaths (found_of m)) }
{
    let args = vec![in alloc;
        path(alloc, "policy", "F", POLICY_HELP),
        path(alloc, "base", "DIR", BASE_HELP),
        path(alloc, "journal", "F", JOURNAL_HELP),
        path(alloc, "out", "DIR", OUT_HELP),
        number(alloc, "workers", WORKERS_HELP),
        flag(alloc, "explain", EXPLAIN_HELP),
        flag(alloc, "check", CHECK_HELP),
        flag(alloc, "as-recorded", AS_RECORDED_HELP),
    ]?;
    program(alloc, "sip_replay", ABOUT, AFTER_HELP, args)
}
