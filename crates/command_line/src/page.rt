//! The words of the command line of `sip_page`, read by `clap`.
ghost use Rattle.std.specs.Prelude.{◌≡◌, IfErr, IfOk, map, true};
ghost use Rattle.clap.specs.Words.{IsParsedFrom, app_of, found_of, matches_of, rows_of, takes};
ghost use Rattle.command_line.specs.Page.{GivesPage, HasPagePaths, sip_page_line};
ghost use Rattle.command_line.specs.Refusals.{EndsBy};
ghost use Rattle.command_line.specs.declared.refusal.Refusal.TheVariants.{Memory};

use crate::chosen::PageOptions;
use crate::parts::{
    Chosen, number, number_or, optional, path, program, read, text_if_given, text_of,
};
use crate::refusal::Refusal;
use clap::{ArgMatches, Command};
use std::alloc::{AllocError, Global};
use std::convert::AsStr;

const DEFAULT_LIMIT: u32 = 1_000;

const ABOUT: &str = "Writes an HTML page that shows what a run of sip_replay found";

const JOURNAL_HELP: &str = "The journal of the run";

const BASE_HELP: &str = "The folder of the tables that the run began with;
without it the page shows no changes of records";

const OUT_HELP: &str = "The folder that has what the run wrote";

const WHY_HELP: &str = "The output of sip_why for this run's wrong
responses; the page then says why each was wrong";

const LIMIT_HELP: &str = "How many wrong responses, and how many
changes, the page shows; 1000 if left out";

const AFTER_HELP: &str = "Example:
  sip_page --journal journal.csv --base tables --out result > page.html

The page goes to standard output. It has names of patrons and what they borrowed, and no passwords.

Status 0: the page was written. 2: the command line or a table is refused, or the tables are
not those of one run; standard error says why. 3: a file cannot be read, or memory ran out.";

/// The options of a page that the words give, of which the first is the program's name; or why they give none.
pub fn page_options<S: AsStr>(alloc: Global, words: &[S]) -> Result<PageOptions, Refusal>
    ensures given { IfOk result (GivesPage (matches_of sip_page_line (map S.text words.now))) }
    ensures accepts { IfErr result (λ e. takes sip_page_line (map S.text words.now) ≡ true
        → e ≡ Memory) }
    ensures ends { EndsBy sip_page_line (map S.text words.now) result }
{
    read(alloc, command(alloc), words)
}

impl Chosen for PageOptions {
    ghost gives = { λ m o. HasPagePaths (found_of m) → GivesPage (rows_of (found_of m)) o };

    fn chosen(alloc: Global, matches: &ArgMatches<'_>) -> Result<PageOptions, AllocError> {
        let journal = text_of(alloc, matches, "journal")?;
        let base = text_if_given(alloc, matches, "base")?;
        let out = text_of(alloc, matches, "out")?;
        let why = text_if_given(alloc, matches, "why")?;
        Ok(PageOptions {
            journal,
            base,
            out,
            why,
            limit: number_or(matches, "limit", DEFAULT_LIMIT),
        })
    }
}

/// The command line of the program.
fn command<'a>(alloc: Global) -> Result<Command<'a>, AllocError>
    ensures line { IfOk result (λ c. app_of c ≡ sip_page_line) }
    ensures paths { IfOk result (λ c. (m : ArgMatches) → IsParsedFrom c m → HasPagePaths (found_of m)) }
{
    let args = vec![in alloc;
        path(alloc, "journal", "F", JOURNAL_HELP),
        optional(alloc, "base", "DIR", BASE_HELP),
        path(alloc, "out", "DIR", OUT_HELP),
        optional(alloc, "why", "F", WHY_HELP),
        number(alloc, "limit", LIMIT_HELP),
    ]?;
    program(alloc, "sip_page", ABOUT, AFTER_HELP, args)
}
