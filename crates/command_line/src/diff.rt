//! The words of the command line of `sip_diff`, read by `clap`.
ghost use Rattle.std.specs.Prelude.{◌≡◌, IfErr, IfOk, map, true};
ghost use Rattle.clap.specs.Built.{TakesValue};
ghost use Rattle.clap.specs.Words.{IsParsedFrom, app_of, found_of, matches_of, rows_of, rule_of, takes};
ghost use Rattle.command_line.specs.CommandLine.{IsOwnArg};
ghost use Rattle.command_line.specs.Diff.{GivesDiff, HasFolders, folder_rule, sip_diff_line};
ghost use Rattle.command_line.specs.Refusals.{EndsBy};
ghost use Rattle.command_line.specs.declared.refusal.Refusal.TheVariants.{Memory};

use crate::parts::{Chosen, bare, program, read, repeated, text_of, texts_of};
use crate::refusal::Refusal;
use clap::{Arg, ArgAction, ArgMatches, Command};
use std::alloc::{AllocError, Global};
use std::convert::AsStr;

const ABOUT: &str = "Compares two folders of tables of a library's circulation,
row by row and in any order of rows, and writes what differs";

const LEFT_HELP: &str = "A folder of tables: patrons.csv, items.csv, loans.csv,
fees.csv, closed.csv and, where there are holds, holds.csv";

const RIGHT_HELP: &str = "The folder that it is compared with";

const LEAVE_HELP: &str = "A column that isn't compared, such as
items.properties; may be given several times";

const AFTER_HELP: &str = "Example:
  sip_diff result exported > differences.csv

What differs goes to standard output, as CSV with the columns table, id, column, left, right: a
row for each value that differs. Where only one side has a row, the column is (row), and left or
right has its values. A loan is named by its item, a hold by its item and its patron; a hold's
place in the queue is a column. A fee whose id only one side has counts as the same as a fee of
another id with the same patron, type, amount and paid. Where nothing differs nothing is written.

Status 0: nothing differs. 1: something does. 2: the command line or
a table is refused, and standard error says why. 3: a file cannot be
read, standard output takes nothing more, or memory ran out.";

/// The two folders of tables that are compared, and what of them isn't, as the words name them.
pub struct DiffOptions {
    /// The folder whose values are in the column `left`.
    pub left: String,
    /// The folder whose values are in the column `right`.
    pub right: String,
    /// The columns that aren't compared, each as a word such as `items.properties`. None of these words has been checked.
    pub leave: Vec<String>,
}

impl Drop for DiffOptions {
    fn drop(self) {
        let DiffOptions {
            left: _,
            right: _,
            leave: _,
        } = self;
    }
}

/// The options of a comparison that the words give, of which the first is the program's name; or why they give none.
pub fn diff_options<S: AsStr>(alloc: Global, words: &[S]) -> Result<DiffOptions, Refusal>
    ensures given { IfOk result (GivesDiff (matches_of sip_diff_line (map S.text words.now))) }
    ensures accepts { IfErr result (λ e. takes sip_diff_line (map S.text words.now) ≡ true
        → e ≡ Memory) }
    ensures ends { EndsBy sip_diff_line (map S.text words.now) result }
{
    read(alloc, command(alloc), words)
}

impl Chosen for DiffOptions {
    ghost gives = { λ m o. HasFolders (found_of m) → GivesDiff (rows_of (found_of m)) o };

    fn chosen(alloc: Global, matches: &ArgMatches<'_>) -> Result<DiffOptions, AllocError> {
        let left = text_of(alloc, matches, "left")?;
        let right = text_of(alloc, matches, "right")?;
        let leave = texts_of(alloc, matches, "leave")?;
        Ok(DiffOptions { left, right, leave })
    }
}

/// A folder, which must be given; its place among the words says which.
fn folder<'a>(alloc: Global, name: &'a str, value: &'a str, help: &'a str) -> Arg<'a>
    ensures rule { rule_of result ≡ folder_rule name.entry.now }
    ensures own { IsOwnArg name.entry.now result }
    ensures takes { TakesValue result }
{
    bare(alloc, name, value, help)
        .action(ArgAction::Set)
        .required(true)
}

/// The command line of the program.
fn command<'a>(alloc: Global) -> Result<Command<'a>, AllocError>
    ensures line { IfOk result (λ c. app_of c ≡ sip_diff_line) }
    ensures folders { IfOk result (λ c. (m : ArgMatches) → IsParsedFrom c m → HasFolders (found_of m)) }
{
    let args = vec![in alloc;
        folder(alloc, "left", "LEFT", LEFT_HELP),
        folder(alloc, "right", "RIGHT", RIGHT_HELP),
        repeated(alloc, "leave", "TABLE.COLUMN", LEAVE_HELP),
    ]?;
    program(alloc, "sip_diff", ABOUT, AFTER_HELP, args)
}
