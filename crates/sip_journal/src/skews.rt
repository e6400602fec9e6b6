//! Clocks that are corrected.

use crate::times::{SECOND, Time};
use command_line::JournalOptions;
use journal_run::MakingError;
use std::alloc::Global;

/// How much is added to the times of a log, in microseconds.
#[derive(Clone, Copy)]
pub enum Skew {
    None,
    Later(u64),
    Earlier(u64),
}

impl Skew {
    /// A time that is corrected so.
    pub fn shifted(self, time: Time) -> Time {
        let micros = match self {
            Skew::None => time.micros,
            Skew::Later(by) => time.micros.saturating_add(by),
            Skew::Earlier(by) => time.micros.saturating_sub(by),
        };
        Time { micros, ..time }
    }
}

/// Refuses a correction that is none, or that is of no log.
pub fn check_skews(alloc: Global, options: &JournalOptions) -> Result<(), MakingError> {
    for skew in &options.skews {
        let word = skew.as_str();
        let Some((name, _)) = parsed(word) else {
            let what = "--skew must be LOG=SECONDS, and not";
            return Err(MakingError::refused(alloc, what, word));
        };
        let is_named = options.logs.iter().any(|log| is_of(name, log.as_str()));
        if !is_named {
            return Err(MakingError::refused(alloc, "--skew names no log:", word));
        }
    }
    Ok(())
}

/// How much is added to the times of a log.
pub fn skew_of(options: &JournalOptions, log: &str) -> Skew {
    for skew in &options.skews {
        if let Some((name, by)) = parsed(skew.as_str()) {
            if is_of(name, log) {
                return by;
            }
        }
    }
    Skew::None
}

/// Whether a log has this name: its path, or the end of its path after a slash.
fn is_of(name: &str, log: &str) -> bool {
    match log.strip_suffix(name) {
        Some(before) => before.is_empty() || before.ends_with('/'),
        None => false,
    }
}

/// A log's name and the seconds after the last `=`: a sign if there is one, digits, and a point with
/// at most six digits.
fn parsed(text: &str) -> Option<(&str, Skew)> {
    let (name, seconds) = text.rsplit_once('=')?;
    let (is_earlier, digits) = match seconds.as_bytes() {
        [b'-', rest @ ..] => (true, rest),
        [b'+', rest @ ..] => (false, rest),
        rest => (false, rest),
    };
    let by = micros_of(digits)?;
    Some((
        name,
        if is_earlier {
            Skew::Earlier(by)
        } else {
            Skew::Later(by)
        },
    ))
}

/// The microseconds of a number of seconds.
fn micros_of(digits: &[u8]) -> Option<u64> {
    let (mut micros, mut unit): (u64, u64) = (0, SECOND);
    let mut has_point = false;
    for byte in digits {
        if *byte == b'.' && !has_point {
            has_point = true;
            continue;
        }
        if !byte.is_ascii_digit() || unit == 1 {
            return None;
        }
        let digit = u64::from(byte.saturating_sub(b'0'));
        if has_point {
            unit /= 10;
            micros = micros.saturating_add(digit.saturating_mul(unit));
        } else {
            let digit = digit.saturating_mul(SECOND);
            micros = micros.saturating_mul(10).saturating_add(digit);
        }
    }
    (digits.len() > usize::from(has_point)).then_some(micros)
}
