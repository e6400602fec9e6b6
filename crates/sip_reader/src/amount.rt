//! Amounts of money.

ghost use Rattle.std.specs.Prelude.{◌≡◌, ◌≤◌, ◌<◌, ◌++◌, if◌then◌else◌, nat_le, Some, None, length, take, IfSome, OnErr, OnOk};
ghost use Rattle.std.specs.Cmp.{partial_order_from_own_ties};
ghost use Rattle.std.specs.Cmp.Rules.{comparing};
ghost use Rattle.std.specs.Ordering.{nat_cmp, as_partial_cmp, eq_by_cmp};
ghost use Rattle.std.proofs.Common.{rules};
ghost use Rattle.sip_reader.specs.Amounts.{amount_of, amount_text, fraction_of, is_fraction, whole_len};

use crate::numerals::{all_digits, digit, number_of_digits};
use itoa::Buffer;
use std::alloc::AllocError;
use std::cmp::Ordering;
use std::marker::Model;

/// The greatest amount, in hundredths.
pub const AMOUNT_MAX: u64 = 99_999_999_999;

/// An amount of money in hundredths, from 0 to 999,999,999.99.
#[derive(Clone, Copy)]
pub struct Amount {
    in_hundredths: u64,
}

impl Model for Amount {
    ghost use Rattle.std.specs.Prelude.{ℕ, ◌≤◌};

    ghost Value = { ℕ };

    ghost view = { λ a. a.in_hundredths };

    ghost invariant = { λ a. a.in_hundredths ≤ 99_999_999_999 };

    ghost inverse = { λ n. record { in_hundredths = n } };
}

impl Amount {
    /// Gives the amount of these hundredths if they are at most 99,999,999,999, else None.
    pub fn new(hundredths: u64) -> Option<Amount>
        ensures { result ≡ (if nat_le hundredths AMOUNT_MAX then Some hundredths else None) }
    {
        if hundredths <= AMOUNT_MAX {
            Some(Amount {
                in_hundredths: hundredths,
            })
        } else {
            None
        }
    }

    /// Gives the amount that a text spells, by 1 to 9 digits and optionally a point with one or two
    /// digits; None for any other text.
    #[tactic(auto, unfolding(crate::specs::Amounts::amount_of))]
    pub fn read(text: &[u8]) -> Option<Amount>
        ensures { result ≡ amount_of text.now }
    {
        let len = digits_at_front(text);
        if len < 1 || len > 9 {
            return None;
        }
        match hundredths_behind(&text[len..]) {
            Some(hundredths) => Some(Amount {
                in_hundredths: number_of_digits(&text[..len]) * 100 + hundredths,
            }),
            None => None,
        }
    }

    /// Gives the hundredths of which it was made, at most 99,999,999,999.
    pub fn hundredths(self) -> u64
        ensures value { result ≡ self }
        ensures small { result ≤ AMOUNT_MAX }
    {
        self.in_hundredths
    }
}

/// How many digits the text begins with.
fn digits_at_front(text: &[u8]) -> usize
    ensures value { result ≡ whole_len text.now }
    ensures within { result ≤ length text.now }
{
    let mut len = 0;
    while len < text.len() && text[len].is_ascii_digit() {
        len += 1;
    }
    len
}

/// The hundredths that the text after the whole digits spells: nothing, or a point and one or two
/// digits.
fn hundredths_behind(text: &[u8]) -> Option<u64>
    ensures value { result ≡ fraction_of text.now }
    ensures small { IfSome result (λ n. n < 100) }
{
    if text.is_empty() {
        return Some(0);
    }
    if !is_point_and_digits(text) {
        return None;
    }
    if text.len() == 2 {
        Some(digit(text[1]) * 10)
    } else {
        Some(digit(text[1]) * 10 + digit(text[2]))
    }
}

fn is_point_and_digits(text: &[u8]) -> bool
    ensures { result ≡ is_fraction text.now }
{
    text.len() >= 2 && text.len() <= 3 && text[0] == b'.' && all_digits(&text[1..])
}

/// Appends hundredths to a text, with at least one digit before the point and exactly two after it.
/// Out of memory, the text is as it was.
pub fn push_amount(out: &mut Vec<u8>, hundredths: u128) -> Result<(), AllocError>
    ensures ok { OnOk result (out.new.items ≡ out.old.items ++ amount_text hundredths) }
    ensures err { OnErr result (out.new.items ≡ out.old.items) }
{
    let len = out.len();
    let written = write_parts(out, hundredths);
    if written.is_err() {
        out.truncate(len);
    }
    written
}

/// Writes the parts of an amount, one after another. Out of memory, the parts before are at the end
/// of the text.
#[tactic(auto, unfolding(crate::specs::Amounts::amount_text))]
fn write_parts(out: &mut Vec<u8>, hundredths: u128) -> Result<(), AllocError>
    ensures ok { OnOk result (out.new.items ≡ out.old.items ++ amount_text hundredths) }
    ensures err { OnErr result (take (length out.old.items) out.new.items ≡ out.old.items) }
{
    let mut buffer = Buffer::new();
    out.extend_from_slice(buffer.format(hundredths / 100).as_bytes())?;
    out.push(b'.')?;
    out.extend_from_slice(buffer.format(hundredths / 10 % 10).as_bytes())?;
    out.extend_from_slice(buffer.format(hundredths % 10).as_bytes())?;
    Ok(())
}

impl PartialEq for Amount {
    ghost eq = { eq_by_cmp nat_cmp };

    ghost laws = { Prim.search (comparing, rules) };

    fn eq(&self, other: &Amount) -> bool {
        self.cmp(other).is_eq()
    }
}

impl Eq for Amount {
    ghost laws = { Prim.search (comparing, rules) };
}

impl Ord for Amount {
    ghost cmp = { nat_cmp };

    ghost total = { Prim.search (comparing, rules) };

    ghost matches_partial_cmp = { Prim.search (comparing, rules) };

    ghost matches_eq = { Prim.search (comparing, rules) };

    fn cmp(&self, other: &Amount) -> Ordering {
        self.hundredths().cmp(&other.hundredths())
    }
}

impl PartialOrd for Amount {
    ghost partial_cmp = { as_partial_cmp nat_cmp };

    ghost laws = { partial_order_from_own_ties (Prim.search (comparing, rules)) (Prim.search (comparing, rules)) };

    fn partial_cmp(&self, other: &Amount) -> Option<Ordering> {
        Some(self.cmp(other))
    }
}
