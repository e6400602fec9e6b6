//! The text of a journal's rows.

ghost use Rattle.std.specs.Prelude.{◌≡◌, ◌+◌, ◌<◌, ◌≤◌, ◌++◌, ◌∷◌, [], ℕ, List, Ok, Some, IfOk, IfSome, OnOk, length, option_map};
ghost use Rattle.std.specs.List.{AllByRecursion};
ghost use Rattle.csv_table.specs.Text.{table_text, with_row, written};
ghost use Rattle.journal_table.specs.Journal.{header, journal_of};
ghost use Rattle.sip_reader.specs.Texts.{line_number_end};
ghost use Rattle.journal_table.specs.declared.TheConstants.{CONNECTION_LIMIT, LINE_LIMIT};
ghost use Rattle.log_pairs.specs.Pairs.{Pair};
ghost use Rattle.log_pairs.specs.Rows.{entries_from, row_of, rows_from};

use crate::exchange::Exchange;
use csv_table::TableText;
use itoa::Buffer;
use std::alloc::{AllocError, Global};

/// The columns of a journal.
const HEADER: [&str; 4] = ["line", "connection", "request", "response"];

/// The text of the header of a journal.
pub fn head_text(alloc: Global) -> Result<Vec<u8>, AllocError>
    ensures { IfOk result (λ text. text.items ≡ table_text (header ∷ [])) }
{
    TableText::under(alloc, &HEADER)?.finish()
}

/// The text of the rows of these exchanges, numbered from `first` on.
pub fn rows_text(alloc: Global, first: u64, exchanges: &[Exchange]) -> Result<Vec<u8>, AllocError>
    requires { first + length exchanges.now ≤ line_number_end }
    ensures { IfOk result (λ text. text.items ≡ table_text (rows_from first exchanges.now)) }
{
    let head = head_text(alloc)?.len();
    let text = table_of(alloc, first, exchanges)?.finish()?;
    Vec::from_slice(alloc, &text[head..])
}

/// A journal of these exchanges, as a table that isn't a text yet.
fn table_of(alloc: Global, first: u64, exchanges: &[Exchange]) -> Result<TableText, AllocError>
    requires { first + length exchanges.now ≤ line_number_end }
    ensures { IfOk result (λ t. t ≡ Some (written header (rows_from first exchanges.now))) }
{
    let mut table = TableText::under(alloc, &HEADER)?;
    let mut number = first;
    for exchange in exchanges {
        write_row(&mut table, number, exchange)?;
        number += 1;
    }
    Ok(table)
}

/// Appends the row of an exchange.
fn write_row(table: &mut TableText, number: u64, exchange: &Exchange) -> Result<(), AllocError>
    requires { IfSome table.old (λ t. t.width ≡ 4) }
    ensures { OnOk result (table.new ≡ option_map (with_row (row_of number exchange.now)) table.old) }
{
    let mut digits = Buffer::new();
    let text = digits.format(number);
    table.row(&[
        text.as_bytes(),
        exchange.connection(),
        exchange.request(),
        exchange.recorded(),
    ])
}

/// A law: the text of a journal is the text of a journal of its first pairs, then the rows of the others.
pub fn joins()
    ensures { (first : ℕ) (front back : List Pair) → table_text (header ∷ rows_from first (front ++ back))
        ≡ table_text (header ∷ rows_from first front) ++ table_text (rows_from (first + length front) back) }
{}

/// A law: a journal's text is read as its pairs.
pub fn reads_back()
    ensures { (first : ℕ) (pairs : List Pair) → 1 ≤ first → first + length pairs ≤ line_number_end → length pairs ≤ LINE_LIMIT
        → AllByRecursion (λ p. length p.connection ≤ CONNECTION_LIMIT) pairs
        → journal_of (table_text (header ∷ rows_from first pairs)) ≡ Ok (entries_from first pairs) }
{}
