//! What to do about what stopped a run, in words that need no knowledge of this program.

ghost use Rattle.std.specs.Prelude.{◌≡◌, Some, option_map};
ghost use Rattle.run_stops.specs.Telling.{fault_remedy, key_remedy, line_remedy, place_of, remedy_of, row_remedy, seen_remedy, stop_text, words_of};

use crate::seen::FaultDetail;
use crate::stop::RunError;
use circ_records::BaseRule;
use command_line::Options;
use journal_table::JournalRule;
use replay_run::Fault;
use std::fmt;

/// What is printed for a stop: its line, and after it, where that is asked for, what to do.
#[derive(Clone, Copy)]
pub struct StopText<'a> {
    pub stop: &'a RunError,
    /// What the run was asked for, where what to do is to be printed too.
    pub asked: Option<&'a Options>,
}

impl fmt::Display for StopText<'_> {
    ghost output = { λ text. Some (stop_text text.stop.now (option_map (λ o. o.now) text.asked)) };

    fn fmt<W: fmt::Write>(&self, f: &mut fmt::Formatter<W>) -> fmt::Result {
        let stop = self.stop;
        match self.asked {
            None => write!(f, "{stop}"),
            Some(options) => write!(f, "{stop}{}", Remedy { stop, options }),
        }
    }
}

/// What to do about a stop, as a line of its own.
#[derive(Clone, Copy)]
pub struct Remedy<'a> {
    pub stop: &'a RunError,
    pub options: &'a Options,
}

impl fmt::Display for Remedy<'_> {
    ghost output = { λ remedy. Some (remedy_of remedy.options.now remedy.stop.now) };

    fn fmt<W: fmt::Write>(&self, f: &mut fmt::Formatter<W>) -> fmt::Result {
        let options = self.options;
        match self.stop {
            RunError::Fault(fault) => write!(f, "{}", FaultRemedy { fault, options }),
            RunError::Seen { fault, seen } => write!(
                f,
                "{}",
                SeenRemedy {
                    fault,
                    seen,
                    options
                }
            ),
            RunError::Replaces { .. } => f.write_str(""),
            RunError::File { path, failure } => write!(
                f,
                "{path}: {failure}. See that it is there, that you may read or write it, and that the disk has room.\n"
            ),
            RunError::NoFolder { folder, .. } => write!(
                f,
                "no folder '{folder}'. Make it, or name the one that is meant.\n"
            ),
            RunError::Output => f.write_str(""),
        }
    }
}

/// What to do about a fault in whose text something is seen, as a line of its own.
#[derive(Clone, Copy)]
struct SeenRemedy<'a> {
    fault: &'a Fault,
    seen: &'a FaultDetail,
    options: &'a Options,
}

impl fmt::Display for SeenRemedy<'_> {
    ghost output = { λ remedy. Some (seen_remedy remedy.options.now remedy.fault.now remedy.seen.now) };

    fn fmt<W: fmt::Write>(&self, f: &mut fmt::Formatter<W>) -> fmt::Result {
        let SeenRemedy {
            fault,
            seen,
            options,
        } = *self;
        let place = FaultPlace { fault, options };
        let words = RemedyWords { fault };
        match seen {
            FaultDetail::Uneven { row } => write!(
                f,
                "Row {row} below the first one has another number of fields. {}",
                FaultRemedy { fault, options }
            ),
            FaultDetail::Header { found, wanted } => write!(
                f,
                "{place}: the header is {found}, and must be {wanted}.\n"
            ),
            FaultDetail::Line { line } => write!(f, "{place}, line {line}: {words}\n"),
            FaultDetail::Key { line, text } => write!(f, "{place}, line {line}: {text}\n"),
            FaultDetail::Values { text } => write!(f, "{place}: {text}: {words}\n"),
            FaultDetail::Form { text, form } => write!(f, "{place}: {text}: {form}.\n"),
            FaultDetail::Packed => write!(
                f,
                "{place}: this is compressed. Unpack it with gunzip, and name what comes out.\n"
            ),
            FaultDetail::Wide => write!(f, "{place}: this is UTF-16. Save it as UTF-8.\n"),
        }
    }
}

/// What to do about a fault, as a line of its own.
#[derive(Clone, Copy)]
struct FaultRemedy<'a> {
    fault: &'a Fault,
    options: &'a Options,
}

impl fmt::Display for FaultRemedy<'_> {
    ghost output = { λ remedy. Some (fault_remedy remedy.options.now remedy.fault.now) };

    fn fmt<W: fmt::Write>(&self, f: &mut fmt::Formatter<W>) -> fmt::Result {
        let FaultRemedy { fault, options } = *self;
        write!(
            f,
            "{}: {}\n",
            FaultPlace { fault, options },
            RemedyWords { fault }
        )
    }
}

/// What a fault is about.
#[derive(Clone, Copy)]
struct FaultPlace<'a> {
    fault: &'a Fault,
    options: &'a Options,
}

impl fmt::Display for FaultPlace<'_> {
    ghost output = { λ place. Some (place_of place.options.now place.fault.now) };

    fn fmt<W: fmt::Write>(&self, f: &mut fmt::Formatter<W>) -> fmt::Result {
        let Options {
            policy,
            base,
            journal,
            ..
        } = self.options;
        match self.fault {
            Fault::BadWorkers => f.write_str("--workers"),
            Fault::PolicyText => write!(f, "{policy}"),
            Fault::PolicyRule { key } => write!(f, "{policy}: {key}"),
            Fault::BaseTable { table } => write!(f, "{base}/{}", table.file()),
            Fault::BaseRule { table, row, .. } => write!(
                f,
                "{base}/{}, row {row} below the header",
                table.file()
            ),
            Fault::JournalTable => write!(f, "{journal}"),
            Fault::JournalRule { row, .. } => write!(f, "{journal}, row {row} below the header"),
            Fault::Attempts { line } => write!(f, "{journal}, line {line}"),
            Fault::ClockSpent => write!(f, "{journal}"),
            Fault::Memory => write!(f, "{journal}"),
        }
    }
}

/// What to do about a fault.
#[derive(Clone, Copy)]
struct RemedyWords<'a> {
    fault: &'a Fault,
}

impl fmt::Display for RemedyWords<'_> {
    ghost output = { λ words. Some (words_of words.fault.now) };

    fn fmt<W: fmt::Write>(&self, f: &mut fmt::Formatter<W>) -> fmt::Result {
        match self.fault {
            Fault::BadWorkers => f.write_str(
                "give a number from 1 to 64, or leave it out; what comes out is the same with any number.",
            ),
            Fault::PolicyText => f.write_str(
                "this is no TOML. Each line is a key, = and a value; texts stand in double quotes. FORMATS.md, section 4, has an example.",
            ),
            Fault::PolicyRule { key } => write!(f, "{}", KeyRemedy { key: key.as_str() }),
            Fault::BaseTable { .. } => f.write_str(
                "the first row must be the header that FORMATS.md, section 5, gives, and each row must have as many fields. Quote a field that holds a comma.",
            ),
            Fault::BaseRule { rule, .. } => write!(f, "{}", RowRemedy { rule: *rule }),
            Fault::JournalTable => f.write_str(
                "the first row must be line,connection,request,response, and each row must have four fields. Quote a field that holds a comma.",
            ),
            Fault::JournalRule { rule, .. } => write!(f, "{}", LineRemedy { rule: *rule }),
            Fault::Attempts { .. } => {
                f.write_str("this line was tried too often. Run again with --workers 1.")
            }
            Fault::ClockSpent => {
                f.write_str("its lines were tried too often. Run again with --workers 1.")
            }
            Fault::Memory => f.write_str(
                "there is too little memory. Cut the journal, and give each part the tables that the part before it wrote.",
            ),
        }
    }
}

/// What to do about a row of a table, by the rule that it breaks.
#[derive(Clone, Copy)]
struct RowRemedy {
    rule: BaseRule,
}

impl fmt::Display for RowRemedy {
    ghost output = { λ remedy. Some (row_remedy remedy.rule) };

    fn fmt<W: fmt::Write>(&self, f: &mut fmt::Formatter<W>) -> fmt::Result {
        match self.rule {
            BaseRule::Text => f.write_str(
                "an id is empty or longer than 64 bytes, another text is longer than 1,024, or one holds a | or a line end. Clean it where you export it.",
            ),
            BaseRule::Value => f.write_str(
                "a value has another form. Write blocked as Y or N, a due day as 20260316, renewals as a whole number, a type as 01 to 09, an amount as 1.50.",
            ),
            BaseRule::Double => f.write_str(
                "its id came before (fees.csv and closed.csv share their ids; in holds.csv it is the item with the patron). Keep one of the two rows.",
            ),
            BaseRule::Class => f.write_str(
                "the policy has no such class. Add [class.NAME] to the policy, or give the patron a class that is there.",
            ),
            BaseRule::Media => f.write_str(
                "the policy has no such media type. Add [media.NNN] to the policy, or give the item a type that is there.",
            ),
            BaseRule::Patron => f.write_str(
                "patrons.csv has no such patron. Export the patron too, or leave this row out.",
            ),
            BaseRule::Item => f.write_str(
                "items.csv has no such item. Export the item too, or leave this row out.",
            ),
            BaseRule::Lent => f.write_str(
                "an earlier row lends the same item. Find out who has it, and keep that row alone.",
            ),
            BaseRule::Paid => f.write_str(
                "the fee is paid in full. Move it to closed.csv, without the last column.",
            ),
            BaseRule::Number => f.write_str(
                "a line of this journal can make a fee with this id. Take tables from before the first line, or let the line numbers go on from the last journal.",
            ),
            BaseRule::Borrower => f.write_str(
                "the patron has the item on loan. Leave this hold out.",
            ),
            BaseRule::Queue => f.write_str(
                "9,999 patrons wait for the item already, and no queue is longer. Leave this row out.",
            ),
        }
    }
}

/// What to do about a row of the journal, by the rule that it breaks.
#[derive(Clone, Copy)]
struct LineRemedy {
    rule: JournalRule,
}

impl fmt::Display for LineRemedy {
    ghost output = { λ remedy. Some (line_remedy remedy.rule) };

    fn fmt<W: fmt::Write>(&self, f: &mut fmt::Formatter<W>) -> fmt::Result {
        match self.rule {
            JournalRule::Lines => f.write_str(
                "a run takes 1,000,000 lines at most. Cut the journal, and give each part the tables that the part before it wrote.",
            ),
            JournalRule::Number => f.write_str(
                "the line's number must be 1 to 9999999999, in digits without leading zeros.",
            ),
            JournalRule::Sequence => f.write_str(
                "each number must be the one before plus one. Look for a line that is missing or stands twice.",
            ),
            JournalRule::Connection => f.write_str(
                "the name of the connection is longer than 64 bytes. Give it a shorter one.",
            ),
        }
    }
}

/// What to do about a policy, by the key whose rule it breaks.
#[derive(Clone, Copy)]
struct KeyRemedy<'a> {
    key: &'a str,
}

impl fmt::Display for KeyRemedy<'_> {
    ghost output = { λ remedy. Some (key_remedy remedy.key.now) };

    fn fmt<W: fmt::Write>(&self, f: &mut fmt::Formatter<W>) -> fmt::Result {
        f.write_str(key_remedy(self.key))
    }
}

/// Its words.
fn key_remedy(key: &str) -> &'static str
    ensures { result.now ≡ key_remedy key.now }
{
    if key == "institution" {
        "give the institution's id in double quotes, 1 to 64 bytes."
    } else if key == "currency" {
        "give three capital letters in double quotes, as USD."
    } else if key == "due_form" {
        "give sip, iso or us, in double quotes."
    } else if key == "closed_weekdays" {
        "give a list in [ ] of English weekdays, each in small letters and double quotes, and not all seven."
    } else if key == "closed_dates" {
        "give a list in [ ] of at most 400 days, each in double quotes, as 2026-12-25, and in the calendar."
    } else {
        "it is missing, it is no key of a policy, or its value is of another kind or too large. FORMATS.md, section 4, lists all keys and values."
    }
}
