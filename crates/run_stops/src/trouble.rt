//! What is wrong at the key that a refusal names, for whoever is to mend the policy.

use circ_policy::{CLASS_KEYS, MEDIA_KEYS, POLICY_KEYS};
use sip_reader::Amount;
use std::alloc::Global;

/// The line of a key in the text of a policy, and what is wrong there.
#[derive(Drop)]
pub(crate) struct KeyTrouble {
    /// From 1.
    pub line: u64,
    /// If it is one of the usual mistakes.
    pub text: Option<String>,
}

/// What is wrong at the key that the refusal of a policy names. Nothing where no line has the key.
pub(crate) fn trouble_at(alloc: Global, key: &str, policy: &[u8]) -> Option<KeyTrouble> {
    let key = key.as_bytes();
    let name = key.rsplit(|b| *b == b'.').next().unwrap_or(key);
    let section = key
        .strip_suffix(name)
        .and_then(|rest| rest.strip_suffix(b"."))
        .unwrap_or(b"");
    if section == b"media".as_slice() || section == b"class".as_slice() {
        let line = header_line(policy, key)?;
        let text = name_trouble(alloc, section);
        return Some(KeyTrouble { line, text });
    }
    let (line, value) = key_line(policy, section, name)?;
    let text = key_trouble(alloc, section, name, value);
    Some(KeyTrouble { line, text })
}

/// The line of the header of a section.
fn header_line(policy: &[u8], section: &[u8]) -> Option<u64> {
    let mut lines = policy.split(|b| *b == b'\n');
    let before = lines.position(|line| is_header(line, section))?;
    Some((before as u64).saturating_add(1))
}

/// The line of a key in a section, or before all sections, and what follows its name.
fn key_line<'p>(policy: &'p [u8], section: &[u8], name: &[u8]) -> Option<(u64, &'p [u8])> {
    let mut is_within = section.is_empty();
    for (before, line) in policy.split(|b| *b == b'\n').enumerate() {
        if is_within {
            if let Some(value) = value_of(line, name) {
                return Some(((before as u64).saturating_add(1), value));
            }
        }
        is_within = is_within || is_header(line, section);
    }
    None
}

/// Whether a line is the header of a section.
fn is_header(line: &[u8], section: &[u8]) -> bool {
    match line.trim_ascii_start().strip_prefix(b"[") {
        Some(rest) => match rest.strip_prefix(section) {
            Some(end) => end.starts_with(b"]"),
            None => false,
        },
        None => false,
    }
}

/// What a line gives a key of this name, without blanks around it and without a remark.
fn value_of<'p>(line: &'p [u8], name: &[u8]) -> Option<&'p [u8]> {
    let rest = line.trim_ascii_start().strip_prefix(name)?;
    let value = rest.trim_ascii_start().strip_prefix(b"=")?;
    let value = value.split(|b| *b == b'#').next()?;
    Some(value.trim_ascii())
}

/// What is wrong with the name of a class or of a media type.
fn name_trouble(alloc: Global, section: &[u8]) -> Option<String> {
    if section == b"media".as_slice() {
        String::from_str(alloc, "a media type is 000 to 010").ok()
    } else {
        String::from_str(alloc, "the name of a class has 1 to 64 bytes").ok()
    }
}

/// What is wrong with a key of a section, which has this value.
fn key_trouble(alloc: Global, section: &[u8], name: &[u8], value: &[u8]) -> Option<String> {
    let keys = keys_of(section);
    if keys.iter().all(|key| key.as_bytes() != name) {
        return no_key(alloc, name, keys);
    }
    let is_money = name == b"max_fees".as_slice()
        || MEDIA_KEYS[1..].iter().any(|key| key.as_bytes() == name);
    if !is_money || !value.contains(&b'.') {
        return None;
    }
    let amount = Amount::read(value)?.hundredths();
    format!(in alloc; "money is in hundredths: {amount}").ok()
}

/// The keys of a section.
fn keys_of(section: &[u8]) -> &'static [&'static str] {
    if section.is_empty() {
        &POLICY_KEYS
    } else if section.starts_with(b"class.") {
        &CLASS_KEYS
    } else {
        &MEDIA_KEYS
    }
}

/// That there is no such key, with the one that is most like it.
fn no_key(alloc: Global, name: &[u8], keys: &[&str]) -> Option<String> {
    let name = str::from_utf8(name).ok()?;
    match nearest(name, keys) {
        Some(near) => format!(in alloc; "no key {name}; {near}?").ok(),
        None => format!(in alloc; "no key {name}").ok(),
    }
}

/// The key that begins as a name does, for three bytes at least and as long as any.
fn nearest<'k>(name: &str, keys: &[&'k str]) -> Option<&'k str> {
    let mut near = None;
    let mut most = 2;
    for key in keys {
        let both = key.as_bytes().iter().zip(name.as_bytes());
        let same = both.take_while(|(a, b)| a == b).count();
        if same > most {
            most = same;
            near = Some(*key);
        }
    }
    near
}
