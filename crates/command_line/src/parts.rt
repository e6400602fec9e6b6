//! What the command lines of the programs are made of, and how their values are read.
ghost use Rattle.std.specs.Prelude.{◌≡◌, Err, IfErr, IfOk, None, Some, ⊤, map, option_map, string_bytes, true};
ghost use Rattle.clap.specs.Built.{TakesValue};
ghost use Rattle.clap.specs.Words.{app_of, first_value, found_of, is_simple_and_free, one_of, rows_of, rule_of, takes};
ghost use Rattle.command_line.specs.CommandLine.{Counts, HasValue, IsOwnArg, IsProgram, values_of};
ghost use Rattle.command_line.specs.Read.{IsReadBy};
ghost use Rattle.command_line.specs.Refusals.{EndsBy};
ghost use Rattle.clap.specs.declared.parser.matches.ArgMatches.{ArgMatches};
ghost use Rattle.command_line.specs.CommandLine.{bare_rule, flag_rule, number_rule, path_rule, repeated_rule, optional_rule};
ghost use Rattle.command_line.specs.declared.refusal.Refusal.TheVariants.{Memory};

use crate::refusal::Refusal;
use clap::builder::ValueParser;
use clap::{Arg, ArgAction, ArgMatches, Command, value_parser};
use std::alloc::{AllocError, Global};
use std::convert::AsStr;

/// The version that the programs say they have, that of the file `VERSION`.
const VERSION: &str = "0.3.0";

/// The command line of a program, with these arguments.
pub(crate) fn program<'a>(
    alloc: Global,
    name: &'a str,
    about: &'a str,
    after_help: &'a str,
    args: Vec<Arg<'a>>,
) -> Result<Command<'a>, AllocError>
    ensures { IfOk result (IsProgram name.entry.now args.entry.items) }
{
    Command::new(alloc, name)
        .version(VERSION)
        .about(about)
        .after_help(after_help)
        .args(args)
}

/// Options that the words of a command line give.
pub(crate) trait Chosen: Sized {
    /// Which options these may be, of what was read.
    ghost gives: { ArgMatches → Self → Type 0 } = { λ _ _. ⊤ };

    /// The options that were read.
    fn chosen(alloc: Global, matches: &ArgMatches<'_>) -> Result<Self, AllocError>
        ensures { IfOk result (gives matches.now) };
}

/// The options that the words give on a command line, where there was memory for it; or why they give none.
pub(crate) fn read<'a, S: AsStr, C: Chosen>(
    alloc: Global,
    command: Result<Command<'a>, AllocError>,
    words: &'a [S],
) -> Result<C, Refusal>
    ensures given { IfOk result (IsReadBy C.gives command.entry (map S.text words.entry.now)) }
    ensures accepts { IfErr result (λ e. IfOk command.entry (λ c. takes (app_of c) (map S.text words.entry.now) ≡ true)
        → e ≡ Memory) }
    ensures memory { IfErr command.entry (λ e. result ≡ Err Memory) }
    ensures ends { IfOk command.entry (λ c. is_simple_and_free (app_of c) ≡ true
        → EndsBy (app_of c) (map S.text words.entry.now) result) }
{
    let command = command?;
    match command.try_get_matches_from(words) {
        Ok(matches) => Ok(C::chosen(alloc, &matches)?),
        Err(error) => Err(Refusal::of_error(alloc, &error)),
    }
}

/// A value that may be left out, and that has no name before it.
pub(crate) fn bare<'a>(alloc: Global, name: &'a str, value: &'a str, help: &'a str) -> Arg<'a>
    ensures rule { rule_of result ≡ bare_rule name.entry.now }
    ensures own { IsOwnArg name.entry.now result }
    ensures one { (result.val_delim ≡ None) × (result.num_vals ≡ None) }
{
    Arg::new(alloc, name).value_name(value).help(help)
}

/// An option that takes a value and may be left out.
pub(crate) fn optional<'a>(alloc: Global, name: &'a str, value: &'a str, help: &'a str) -> Arg<'a>
    ensures rule { rule_of result ≡ optional_rule name.entry.now }
    ensures own { IsOwnArg name.entry.now result }
    ensures one { (result.val_delim ≡ None) × (result.num_vals ≡ None) }
{
    bare(alloc, name, value, help).long(name)
}

/// An option that must be given and takes a path, which has a byte at least.
pub(crate) fn path<'a>(alloc: Global, name: &'a str, value: &'a str, help: &'a str) -> Arg<'a>
    ensures rule { rule_of result ≡ path_rule name.entry.now }
    ensures own { IsOwnArg name.entry.now result }
    ensures takes { TakesValue result }
{
    optional(alloc, name, value, help)
        .action(ArgAction::Set)
        .required(true)
        .value_parser(ValueParser::NonEmptyString)
}

/// An option that may be given several times.
pub(crate) fn repeated<'a>(alloc: Global, name: &'a str, value: &'a str, help: &'a str) -> Arg<'a>
    ensures rule { rule_of result ≡ repeated_rule name.entry.now }
    ensures own { IsOwnArg name.entry.now result }
{
    optional(alloc, name, value, help).action(ArgAction::Append)
}

/// An option that takes a number and may be left out.
pub(crate) fn number<'a>(alloc: Global, name: &'a str, help: &'a str) -> Arg<'a>
    ensures rule { rule_of result ≡ number_rule name.entry.now }
    ensures own { IsOwnArg name.entry.now result }
{
    optional(alloc, name, "N", help).value_parser(value_parser!(u32))
}

/// An option whose value may begin with a hyphen.
pub(crate) fn free_text<'a>(
    alloc: Global,
    name: &'a str,
    value: &'a str,
    help: &'a str,
) -> Arg<'a> {
    optional(alloc, name, value, help).allow_hyphen_values(true)
}

/// An option that takes a path, which has a byte at least and may begin with a hyphen.
pub(crate) fn free_path<'a>(
    alloc: Global,
    name: &'a str,
    value: &'a str,
    help: &'a str,
) -> Arg<'a> {
    free_text(alloc, name, value, help).value_parser(ValueParser::NonEmptyString)
}

/// An option that is given or not.
pub(crate) fn flag<'a>(alloc: Global, name: &'a str, help: &'a str) -> Arg<'a>
    ensures rule { rule_of result ≡ flag_rule name.entry.now }
    ensures own { IsOwnArg name.entry.now result }
{
    Arg::new(alloc, name)
        .long(name)
        .action(ArgAction::SetTrue)
        .help(help)
}

/// The first value of `id`, which must be given, copied.
pub(crate) fn text_of(
    alloc: Global,
    matches: &ArgMatches<'_>,
    id: &str,
) -> Result<String, AllocError>
    ensures { IfOk result (λ s. HasValue (found_of matches.now) id.now → Some (string_bytes s) ≡ first_value (found_of matches.now) id.now) }
{
    String::from_str(alloc, matches.get_str(id).unwrap_or(""))
}

/// The first value of `id`, copied, where it has one.
pub(crate) fn text_if_given(
    alloc: Global,
    matches: &ArgMatches<'_>,
    id: &str,
) -> Result<Option<String>, AllocError>
    ensures { IfOk result (λ o. option_map string_bytes o ≡ first_value (found_of matches.now) id.now) }
{
    let Some(text) = matches.get_str(id) else {
        return Ok(None);
    };
    Ok(Some(String::from_str(alloc, text)?))
}

/// The number of `id`; this one where it has none.
pub(crate) fn number_or(matches: &ArgMatches<'_>, id: &str, default: u32) -> u32
    ensures { Counts default (one_of id.now (rows_of (found_of matches.now))) result }
{
    matches.get_one::<u32>(id).unwrap_or(default)
}

/// The values of `id`, copied.
pub(crate) fn texts_of(
    alloc: Global,
    matches: &ArgMatches<'_>,
    id: &str,
) -> Result<Vec<String>, AllocError>
    ensures { IfOk result (λ v. map string_bytes v.items ≡ values_of (found_of matches.now) id.now) }
{
    let given = matches.get_strs(id).unwrap_or(&[]);
    let mut texts = Vec::new(alloc);
    for text in given {
        texts.push(String::from_str(alloc, text)?)?;
    }
    Ok(texts)
}
