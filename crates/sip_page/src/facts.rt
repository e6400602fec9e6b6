//! What is known of a wrong line, as a group of this line alone.

use crate::groups::Group;
use crate::reading::LineRows;
use crate::whys::Whys;
use page_words::{
    ANSWERED, Case, CaseNames, WEIGHTS, Wording, fill, group_saying, known, split, value_in,
};
use std::alloc::{AllocError, Global};

/// Writes what is known of a line whose response is wrong into a new group.
pub fn put_facts(
    alloc: Global,
    group: &mut Group,
    line: &LineRows,
    case: &Case<'_>,
    names: &CaseNames,
    whys: &Whys,
) -> Result<(), AllocError> {
    let mut same = Wording::new(alloc);
    let mut other = Wording::new(alloc);
    group.weight = put_sayings(&mut same, &mut other, line.words(), case, names);
    whys.put(&mut same, line, names)?;
    let reason = known(ANSWERED, whys.reason_of(line.number));
    if !reason.is_empty() {
        other.add(b": ");
        other.add(reason);
    }
    group.same = same.finish()?;
    group.other = other.finish()?;
    let date = value_in(&case.asked, b"date");
    group.words.extend_from_slice(line.words())?;
    group.kind.extend_from_slice(case.kind)?;
    group.connection.extend_from_slice(line.connection())?;
    group.first.extend_from_slice(date)?;
    group.last.extend_from_slice(date)
}

/// What a group of lines with this reason is found by, and what the groups are put in order by: the weight first.
pub fn key_of(alloc: Global, group: &Group, reason: &[u8]) -> Result<Vec<u8>, AllocError> {
    let mut key = Wording::new(alloc);
    key.add(&[group.weight]);
    add_part(&mut key, &group.words);
    add_part(&mut key, &group.kind);
    add_part(&mut key, &group.connection);
    add_part(&mut key, reason);
    add_part(&mut key, &group.other);
    key.finish()
}

fn add_part(key: &mut Wording, part: &[u8]) {
    key.add(b"\n");
    key.add(part);
}

/// Writes what each word says of a group of such lines, and returns the weight of the worst one.
fn put_sayings(
    same: &mut Wording,
    other: &mut Wording,
    words: &[u8],
    case: &Case<'_>,
    names: &CaseNames,
) -> u8 {
    let mut worst = b'3';
    for word in split(words, b' ') {
        if word.is_empty() {
            break;
        }
        if !other.is_empty() {
            same.add(b"; ");
            other.add(b"; ");
        }
        let (said, otherwise) = group_saying(word, case);
        fill(same, said, case, &case.right, names);
        other.add(otherwise);
        worst = worst.min(known(WEIGHTS, word).first().copied().unwrap_or(b'1'));
    }
    worst
}
