//! What of a record mattered, in words of the tables.

use circ_policy::{Media, Policy, late_fee};
use circ_records::{Fee, Item, Key, Patron, Record};
use read_set::Notes;
use sip_answer::Reason;
use sip_reader::{Act, Day, Reading, push_amount};
use std::alloc::{AllocError, Global};

/// What a line was asked: its message, and why it was answered as it was.
#[derive(Clone, Copy)]
pub struct AnsweredLine<'l> {
    pub policy: &'l Policy,
    pub reading: Option<&'l Reading>,
    pub reason: Reason,
}

/// Adds a word and what it says, after a semicolon where it isn't the first.
fn add(out: &mut Vec<u8>, word: &str, value: &[u8]) -> Result<(), AllocError> {
    if !out.is_empty() {
        out.extend_from_slice(b"; ")?;
    }
    out.extend_from_slice(word.as_bytes())?;
    if !value.is_empty() {
        out.push(b' ')?;
        out.extend_from_slice(value)?;
    }
    Ok(())
}

/// The eight digits of a day.
fn day_text(alloc: Global, day: Day) -> Result<String, AllocError> {
    let (year, month, day) = day.parts();
    format!(in alloc; "{year}{month:02}{day:02}")
}

fn add_day(alloc: Global, out: &mut Vec<u8>, word: &str, day: Day) -> Result<(), AllocError> {
    add(out, word, day_text(alloc, day)?.as_bytes())
}

fn add_number(out: &mut Vec<u8>, word: &str, number: u64) -> Result<(), AllocError> {
    let mut digits = itoa::Buffer::new();
    add(out, word, digits.format(number).as_bytes())
}

fn add_of(out: &mut Vec<u8>, limit: u64) -> Result<(), AllocError> {
    let mut digits = itoa::Buffer::new();
    out.extend_from_slice(b" of ")?;
    out.extend_from_slice(digits.format(limit).as_bytes())
}

fn add_amount(
    alloc: Global,
    out: &mut Vec<u8>,
    word: &str,
    amount: u128,
) -> Result<(), AllocError> {
    let mut text = Vec::new(alloc);
    push_amount(&mut text, amount)?;
    add(out, word, &text)
}

/// What of a record mattered: of a patron the class, the block, the loans and, where its fees were read, what is owed; of an item its loan, its
/// queue, its rental, and the due day or the late fee that the line made of them; of a fee its patron, its amount and what is paid.
pub fn say(
    alloc: Global,
    asked: &AnsweredLine<'_>,
    notes: &Notes,
    found: Option<&Record>,
) -> Result<Vec<u8>, AllocError> {
    let mut out = Vec::new(alloc);
    match found {
        Some(Record::Patron(patron)) => say_patron(alloc, &mut out, asked, notes, patron.get())?,
        Some(Record::Item(item)) => say_item(alloc, &mut out, asked, item.get())?,
        Some(Record::Fee(fee)) => say_fee(alloc, &mut out, fee.get())?,
        None => add(&mut out, "none", b"")?,
    }
    Ok(out)
}

fn say_patron(
    alloc: Global,
    out: &mut Vec<u8>,
    asked: &AnsweredLine<'_>,
    notes: &Notes,
    patron: &Patron,
) -> Result<(), AllocError> {
    add(out, "class", patron.class.as_bytes())?;
    add(out, "blocked", if patron.blocked { b"Y" } else { b"N" })?;
    add_number(out, "loans", patron.loans.len() as u64)?;
    let class = asked.policy.class(&patron.class);
    if let Some(class) = &class {
        add_of(out, u64::from(class.max_loans))?;
    }
    if let Some(owed) = owed_by(notes, patron)? {
        add_amount(alloc, out, "owed", owed)?;
        if let Some(class) = class {
            out.extend_from_slice(b" of ")?;
            push_amount(out, u128::from(class.max_fees.hundredths()))?;
        }
    }
    Ok(())
}

/// What a patron owes in hundredths, where each of its fees was read.
fn owed_by(notes: &Notes, patron: &Patron) -> Result<Option<u128>, AllocError> {
    let mut owed: u128 = 0;
    for id in patron.fees.as_slice() {
        let Some(note) = notes.get(&Key::Fee(id.clone()?)) else {
            return Ok(None);
        };
        if let Some(Record::Fee(fee)) = note.found.record()? {
            let fee = fee.get();
            let rest = fee
                .amount
                .hundredths()
                .saturating_sub(fee.paid.hundredths());
            owed = owed.saturating_add(u128::from(rest));
        }
    }
    Ok(Some(owed))
}

fn say_item(
    alloc: Global,
    out: &mut Vec<u8>,
    asked: &AnsweredLine<'_>,
    item: &Item,
) -> Result<(), AllocError> {
    match &item.loan {
        Some(loan) => {
            add(out, "borrower", loan.patron.as_bytes())?;
            add_day(alloc, out, "due", loan.due)?;
            add_number(out, "renewals", u64::from(loan.renewals))?;
        }
        None => add(out, "borrower none", b"")?,
    }
    add_number(out, "holds", item.holds.len() as u64)?;
    if let Some(first) = item.holds.as_slice().first() {
        add(out, "first", first.patron.as_bytes())?;
    }
    let Some(media) = asked.policy.media(item.media) else {
        return Ok(());
    };
    if media.rental.hundredths() > 0 {
        add_amount(alloc, out, "rental", u128::from(media.rental.hundredths()))?;
    }
    match asked.reason {
        Reason::Made | Reason::Renewed => say_due(alloc, out, asked, &media),
        Reason::ReturnedLate => say_late(alloc, out, asked, item, &media),
        _ => Ok(()),
    }
}

/// The due day that was made, the days of its media type, and the closed days that it was rolled over; or the day that was given.
fn say_due(
    alloc: Global,
    out: &mut Vec<u8>,
    asked: &AnsweredLine<'_>,
    media: &Media,
) -> Result<(), AllocError> {
    let Some(Reading::Asked(request)) = asked.reading else {
        return Ok(());
    };
    if let Some(given) = given_day(&request.act) {
        return add_day(alloc, out, "due day given", given);
    }
    let day = request.date.day();
    let due = asked.policy.due(day, media);
    add_day(alloc, out, "due day", due)?;
    add_number(out, "days", u64::from(media.days.count()))?;
    let first = day.number() + u32::from(media.days.count());
    if first < due.number() {
        add(out, "closed", b"")?;
        for number in first..due.number() {
            if let Some(closed) = Day::numbered(number) {
                out.push(b' ')?;
                out.extend_from_slice(day_text(alloc, closed)?.as_bytes())?;
            }
        }
    }
    Ok(())
}

/// The due day that a forced request gives.
fn given_day(act: &Act) -> Option<Day> {
    match act {
        Act::Checkout(q) if q.no_block || q.cancel => q.due,
        Act::Renew(q) if q.no_block => q.due,
        _ => None,
    }
}

/// The day back and the late fee.
fn say_late(
    alloc: Global,
    out: &mut Vec<u8>,
    asked: &AnsweredLine<'_>,
    item: &Item,
    media: &Media,
) -> Result<(), AllocError> {
    let Some(Reading::Asked(request)) = asked.reading else {
        return Ok(());
    };
    let Act::Checkin(checkin) = &request.act else {
        return Ok(());
    };
    let back = checkin.back.unwrap_or(request.date.day());
    add_day(alloc, out, "back", back)?;
    if let Some(loan) = &item.loan {
        let fee = late_fee(loan.due, back, media);
        add_amount(alloc, out, "late fee", u128::from(fee.hundredths()))?;
    }
    Ok(())
}

fn say_fee(alloc: Global, out: &mut Vec<u8>, fee: &Fee) -> Result<(), AllocError> {
    add(out, "patron", fee.patron.as_bytes())?;
    add(out, "type", &fee.kind.code())?;
    add_amount(alloc, out, "amount", u128::from(fee.amount.hundredths()))?;
    add_amount(alloc, out, "paid", u128::from(fee.paid.hundredths()))
}
