//! What single values of a policy file say.

ghost use Rattle.std.specs.Prelude.{◌≡◌, ◌≤◌, Some, IfSome, length, option_map, slice_index};
ghost use Rattle.std.specs.Int.{IsInRange};
ghost use Rattle.std.specs.List.{list_all};
ghost use Rattle.circ_policy.specs.Values.{currency_in, date_in, due_form_in, in_range, is_capital, two_digits, weekday_in, whole_of, written_day};
ghost use Rattle.toml.specs.View.{view};

use crate::due_form::DueForm;
use sip_reader::Day;
use toml::Value;

/// The number, where it is from low to high.
fn number_in(low: u64, high: u64, number: i64) -> Option<u64>
    ensures value { result ≡ in_range low high number }
    ensures range { IfSome result (λ n. IsInRange low high n) }
{
    if number < 0 {
        return None;
    }
    let number = number as u64;
    if low <= number && number <= high {
        Some(number)
    } else {
        None
    }
}

/// The whole number that a value is, where it is from low to high.
pub(crate) fn whole_of(low: u64, high: u64, value: Option<&Value>) -> Option<u64>
    ensures value { result ≡ whole_of low high (option_map (λ v. view v.now) value.entry) }
    ensures range { IfSome result (λ n. IsInRange low high n) }
{
    match value {
        Some(value) => match value.as_integer() {
            Some(number) => number_in(low, high, number),
            None => None,
        },
        None => None,
    }
}

/// The currency that a text names.
#[tactic(auto, unfolding(crate::specs::Values::currency_in))]
pub(crate) fn currency_of(text: &str) -> Option<[u8; 3]>
    ensures { result ≡ currency_in text.now }
{
    let bytes = text.as_bytes();
    if bytes.len() == 3 && all_capitals(bytes) {
        Some([bytes[0], bytes[1], bytes[2]])
    } else {
        None
    }
}

fn all_capitals(text: &[u8]) -> bool
    ensures { result ≡ list_all is_capital text.now }
{
    text.iter().all(|b| b'A' <= *b && *b <= b'Z')
}

/// The form of due dates that a text names.
#[tactic(auto, unfolding(crate::specs::Values::due_form_in))]
pub(crate) fn due_form_of(text: &str) -> Option<DueForm>
    ensures { result ≡ due_form_in text.now }
{
    match text {
        "sip" => Some(DueForm::Sip),
        "iso" => Some(DueForm::Iso),
        "us" => Some(DueForm::Us),
        _ => None,
    }
}

/// The weekday that a text names, counted from Monday as 0.
#[tactic(auto, unfolding(crate::specs::Values::weekday_in))]
pub(crate) fn weekday_of(text: &str) -> Option<usize>
    ensures value { result ≡ weekday_in text.now }
    ensures range { IfSome result (λ w. w ≤ 6) }
{
    match text {
        "monday" => Some(0),
        "tuesday" => Some(1),
        "wednesday" => Some(2),
        "thursday" => Some(3),
        "friday" => Some(4),
        "saturday" => Some(5),
        "sunday" => Some(6),
        _ => None,
    }
}

/// The day that a text `YYYY-MM-DD` names.
#[tactic(auto, unfolding(crate::specs::Values::date_in))]
pub(crate) fn date_of(text: &str) -> Option<Day>
    ensures { result ≡ date_in text.now }
{
    let bytes = text.as_bytes();
    if bytes.len() == 10 && bytes[4] == b'-' && bytes[7] == b'-' {
        written_day(bytes)
    } else {
        None
    }
}

/// The day that the digits of a text `YYYY-MM-DD` name.
#[tactic(auto, unfolding(crate::specs::Values::written_day))]
fn written_day(text: &[u8]) -> Option<Day>
    requires { length text.now ≡ 10 }
    ensures { result ≡ written_day text.now }
{
    match (
        two_digits(text[0], text[1]),
        two_digits(text[2], text[3]),
        two_digits(text[5], text[6]),
        two_digits(text[8], text[9]),
    ) {
        (Some(century), Some(year), Some(month), Some(day)) => {
            Day::of(100 * u16::from(century) + u16::from(year), month, day)
        }
        _ => None,
    }
}

/// The number that two digits spell.
fn two_digits(a: u8, b: u8) -> Option<u8>
    ensures value { result ≡ two_digits a b }
    ensures small { IfSome result (λ n. n ≤ 99) }
{
    if a.is_ascii_digit() && b.is_ascii_digit() {
        Some(10 * (a - b'0') + (b - b'0'))
    } else {
        None
    }
}
