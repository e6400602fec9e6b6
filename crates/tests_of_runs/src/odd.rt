//! Lines over records that no moment ever had: the rules are total, and each says what counts as
//! what.

use crate::books::odd::ODD;
use crate::calls::parts_of;
use crate::texts::{inputs_of, plan_of};
use crate::told::tell_effect;
use circ_policy::MediaType;
use circ_records::{Fee, FeeType, Hold, Holds, Ids, Item, Key, Loan, Patron, Record};
use message_meaning::{Live, perform};
use read_set::{Plan, Writes};
use sip_reader::{Amount, Day, Id, Text};
use std::alloc::{AllocError, AllocGlobal, Global};
use std::process::Abort;
use std::test::Fail;

/// The key of an id: a patron's begins with P or X, a fee's with F or R, and an item's otherwise.
pub(crate) fn key_of(alloc: Global, id: &str) -> Result<Option<Key>, AllocError> {
    let Some(read) = Id::read(alloc, id.as_bytes())? else {
        return Ok(None);
    };
    Ok(Some(if id.starts_with("P") || id.starts_with("X") {
        Key::Patron(read)
    } else if id.starts_with("F") || id.starts_with("R") {
        Key::Fee(read)
    } else {
        Key::Item(read)
    }))
}

/// A record in words: `patron A I1+V1 F1` (class, loans, fees), `item 001 P1 P2+P1` (media type,
/// borrower, queue) or `fee 3.00 1.00` (amount, paid). A `|` is no id.
fn record_of(
    alloc: Global,
    kind: &str,
    first: &str,
    rest: &str,
) -> Result<Option<Record>, AllocError> {
    match kind {
        "patron" => patron_of(alloc, first, rest),
        "item" => item_of(alloc, first, rest),
        _ => fee_of(alloc, first, rest),
    }
}

/// Ann, of a class, with these loans and fees.
fn patron_of(alloc: Global, class: &str, lists: &str) -> Result<Option<Record>, AllocError> {
    let (loans, fees) = lists.split_once(' ').unwrap_or((lists, ""));
    let loans = ids_of(alloc, loans)?;
    let fees = ids_of(alloc, fees)?;
    let class = Id::read(alloc, class.as_bytes())?;
    let (Some(name), Some(class)) = (Text::read(alloc, b"Ann")?, class) else {
        return Ok(None);
    };
    let patron = Patron {
        name,
        class,
        blocked: false,
        loans,
        fees,
    };
    Ok(Some(Record::patron(alloc, patron)?))
}

fn ids_of(alloc: Global, text: &str) -> Result<Ids, AllocError> {
    let mut ids = Ids::new();
    for id in text.split('+') {
        if let Some(id) = Id::read(alloc, id.as_bytes())? {
            ids.push(alloc, id)?;
        }
    }
    Ok(ids)
}

/// An item of a media type, with its borrower, if it has one, and its queue.
fn item_of(alloc: Global, media: &str, lists: &str) -> Result<Option<Record>, AllocError> {
    let (borrower, queue) = lists.split_once(' ').unwrap_or((lists, ""));
    let holds = queue_of(alloc, queue)?;
    let borrower = Id::read(alloc, borrower.as_bytes())?;
    let loan = match (borrower, Day::of(2026, 2, 16)) {
        (Some(patron), Some(due)) => Some(Loan {
            patron,
            due,
            renewals: 0,
        }),
        _ => None,
    };
    let title = Text::read(alloc, b"One")?;
    let location = Text::read(alloc, b"Main")?;
    let properties = Text::read(alloc, b"")?;
    let media = MediaType::of_code(media.as_bytes());
    match (title, location, properties, media) {
        (Some(title), Some(location), Some(properties), Some(media)) => {
            let item = Item {
                title,
                media,
                location,
                properties,
                loan,
                holds,
            };
            Ok(Some(Record::item(alloc, item)?))
        }
        _ => Ok(None),
    }
}

/// A queue of patrons who named no place.
fn queue_of(alloc: Global, text: &str) -> Result<Holds, AllocError> {
    let mut holds = Holds::new(alloc);
    for id in text.split('+') {
        if let Some(hold) = hold_of(alloc, id)? {
            holds.push(hold)?;
        }
    }
    Ok(holds)
}

fn hold_of(alloc: Global, id: &str) -> Result<Option<Hold>, AllocError> {
    let pickup = Text::read(alloc, b"")?;
    Ok(match (Id::read(alloc, id.as_bytes())?, pickup) {
        (Some(patron), Some(pickup)) => Some(Hold { patron, pickup }),
        _ => None,
    })
}

/// A fee of this amount, of which so much is paid.
fn fee_of(alloc: Global, amount: &str, paid: &str) -> Result<Option<Record>, AllocError> {
    let (amount, paid) = (
        Amount::read(amount.as_bytes()),
        Amount::read(paid.as_bytes()),
    );
    match (Id::read(alloc, b"P1")?, amount, paid) {
        (Some(patron), Some(amount), Some(paid)) => {
            let fee = Fee {
                patron,
                kind: FeeType::Other,
                amount,
                paid,
            };
            Ok(Some(Record::fee(alloc, fee)?))
        }
        _ => Ok(None),
    }
}

/// Puts the records of a text over those of a run's base, whether they fit together or not.
fn put_records(alloc: Global, live: &mut Live, text: &str) -> Result<(), AllocError> {
    for line in text.split('\n') {
        if let Some(words) = line.strip_prefix("put ") {
            put_record(alloc, live, words)?;
        }
    }
    Ok(())
}

fn put_record(alloc: Global, live: &mut Live, words: &str) -> Result<(), AllocError> {
    let (id, rest) = words.split_once(' ').unwrap_or((words, ""));
    let (kind, first, rest) = parts_of(rest);
    match (key_of(alloc, id)?, record_of(alloc, kind, first, rest)?) {
        (Some(key), Some(record)) => live.put(Writes::one(alloc, key, record)?),
        _ => Ok(()),
    }
}

/// What the first line does.
fn tell_line(alloc: Global, plan: &Plan, text: &str, out: &mut String) -> Result<(), AllocError> {
    let mut live = Live::over(alloc, plan)?;
    put_records(alloc, &mut live, text)?;
    match perform(alloc, plan, 1, &mut live) {
        Ok(effect) => tell_effect(alloc, out, effect.answer.as_ref(), effect.writes.as_slice()),
        Err(_) => Err(AllocError),
    }
}

/// Performs the line of each row.
fn perform_lines<R: AllocGlobal + Abort>(rt: &R) -> Result<(), Fail> {
    let alloc = rt.alloc();
    for row in ODD.split('#') {
        if let Some((text, wanted)) = row.split_once("\n\n") {
            let inputs = inputs_of(alloc, text)?;
            let plan = plan_of(alloc, &inputs).expect(rt, "a plan");
            let mut out = String::new(alloc);
            tell_line(alloc, &plan, text, &mut out)?;
            out.push_str("\n")?;
            assert_eq!(rt; out.as_str(), wanted);
        }
    }
    Ok(())
}

#[test]
fn lines_over_odd_records(rt: HostRuntime) -> Result<(), Fail> {
    perform_lines(&rt)
}
