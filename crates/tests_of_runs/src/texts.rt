//! What a run is given, from the text of a book, and what it gives, as a text.

use read_set::{Plan, Way};
use replay_run::{Inputs, Output, Prepared, judge_inputs};
use schema::Tables;
use std::alloc::{AllocError, Global};
use std::str::from_utf8;

/// The library with which each run begins.
const LIBRARY: &str = r#"policy institution = "L1"
policy currency = "USD"
policy due_form = "sip"
policy closed_weekdays = ["sunday"]
policy [class.A]
policy max_loans = 2
policy max_fees = 1000
policy max_renewals = 1
policy [media.001]
policy days = 14
policy rental = 0
policy late = 25
policy cap = 500
policy [media.005]
policy days = 7
policy rental = 100
policy late = 0
policy cap = 0
patrons id,name,class,blocked
patrons P1,Ann,A,N
patrons P2,Bob,A,N
items id,title,media,location,properties
items I1,One,001,Main,
items V1,Two,005,Main,
items V2,Three,005,Main,
loans patron,item,due,renewals
fees id,patron,type,amount,paid
closed id,patron,type,amount
journal line,connection,request,response"#;

fn no_inputs(alloc: Global) -> Inputs {
    Inputs {
        policy: Vec::new(alloc),
        tables: Tables {
            patrons: Vec::new(alloc),
            items: Vec::new(alloc),
            loans: Vec::new(alloc),
            fees: Vec::new(alloc),
            closed: Vec::new(alloc),
            holds: Vec::new(alloc),
        },
        journal: Vec::new(alloc),
        way: Way::ByRules,
    }
}

/// A file by its name.
fn file_of<'a>(inputs: &'a mut Inputs, name: &str) -> Option<&'a mut Vec<u8>> {
    Some(match name {
        "policy" => &mut inputs.policy,
        "patrons" => &mut inputs.tables.patrons,
        "items" => &mut inputs.tables.items,
        "loans" => &mut inputs.tables.loans,
        "fees" => &mut inputs.tables.fees,
        "closed" => &mut inputs.tables.closed,
        "holds" => &mut inputs.tables.holds,
        "journal" => &mut inputs.journal,
        _ => return None,
    })
}

/// Adds the rows of a text to their files. Other lines say nothing of files.
fn add_rows(inputs: &mut Inputs, text: &str) -> Result<(), AllocError> {
    for line in text.split('\n') {
        if let Some((name, row)) = line.split_once(' ')
            && let Some(file) = file_of(inputs, name)
        {
            file.extend_from_slice(row.as_bytes())?;
            file.extend_from_slice(b"\n")?;
        }
    }
    Ok(())
}

/// The files of a run: those of the library, with the rows of a text after theirs.
pub(crate) fn inputs_of(alloc: Global, text: &str) -> Result<Inputs, AllocError> {
    let mut inputs = no_inputs(alloc);
    add_rows(&mut inputs, LIBRARY)?;
    add_rows(&mut inputs, text)?;
    Ok(inputs)
}

/// The plan of a run; none where its files are refused.
pub(crate) fn plan_of(alloc: Global, inputs: &Inputs) -> Option<Plan> {
    match judge_inputs(alloc, inputs) {
        Ok(Prepared { plan, journal: _ }) => Some(plan),
        Err(_) => None,
    }
}

/// Whether two outputs have the same sizes and the same nine files.
pub(crate) fn is_same(one: &Output, other: &Output) -> bool {
    one.sizes == other.sizes
        && one.tables.patrons == other.tables.patrons
        && one.tables.items == other.tables.items
        && one.tables.loans == other.tables.loans
        && one.tables.fees == other.tables.fees
        && one.tables.closed == other.tables.closed
        && one.tables.holds == other.tables.holds
        && one.answers == other.answers
        && one.report == other.report
        && one.passed == other.passed
}

fn tell_file(out: &mut String, file: &Vec<u8>) -> Result<(), AllocError> {
    out.push_str(from_utf8(file.as_slice()).unwrap_or("?"))
}

/// The nine files of an output, one after another.
pub(crate) fn tell_files(out: &mut String, output: &Output) -> Result<(), AllocError> {
    tell_file(out, &output.tables.patrons)?;
    tell_file(out, &output.tables.items)?;
    tell_file(out, &output.tables.loans)?;
    tell_file(out, &output.tables.fees)?;
    tell_file(out, &output.tables.closed)?;
    tell_file(out, &output.tables.holds)?;
    tell_file(out, &output.answers)?;
    tell_file(out, &output.report)?;
    tell_file(out, &output.passed)
}
