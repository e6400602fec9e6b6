//! The parts of which a response is made, each appended to what is written before.

ghost use Rattle.std.specs.Prelude.{◌≡◌, ◌++◌, ◌∷◌, [], ◌/◌, ◌%◌, OnOk, Some, codes, decimal};
ghost use Rattle.sip_reader.specs.Amounts.{amount_text};
ghost use Rattle.sip_answer.specs.Texts.{money};
ghost use Rattle.sip_answer.specs.Parts.{field, filled, digit, flag, with_sequence};

use itoa::Buffer;
use sip_reader::{Id, Text, push_amount, sum_of};
use std::alloc::AllocError;

/// The greatest count that a response has in its four digits (SIP 2.00, fixed-length fields).
pub const COUNT_MAX: usize = 9999;

/// The hexadecimal digits.
const HEX: &[u8; 16] = b"0123456789ABCDEF";

/// Appends a field: its identifier, its text and a bar. Inlined, since each caller knows its
/// identifier.
#[inline(always)]
#[tactic(auto, unfolding(crate::specs::Parts::field))]
pub fn put_field(out: &mut Vec<u8>, id: &[u8; 2], text: &[u8]) -> Result<(), AllocError>
    ensures { OnOk result (out.new.items ≡ out.old.items ++ field id.now text.now) }
{
    out.extend_from_slice(id)?;
    out.extend_from_slice(text)?;
    out.extend_from_slice(b"|")
}

/// Appends a field of an id: its identifier, the id's bytes and a bar. Most ids are short, and are
/// copied without a call. Inlined, for the same reason.
#[inline(always)]
#[tactic(auto, unfolding(crate::specs::Parts::field))]
pub fn put_id(out: &mut Vec<u8>, id: &[u8; 2], named: &Id) -> Result<(), AllocError>
    ensures { OnOk result (out.new.items ≡ out.old.items ++ field id.now named.now) }
{
    out.extend_from_slice(id)?;
    named.append_to(out)?;
    out.extend_from_slice(b"|")
}

/// Appends a field of a text that is mostly short: its identifier, the text's bytes and a bar.
/// Inlined, for the same reason.
#[inline(always)]
#[tactic(auto, unfolding(crate::specs::Parts::field))]
pub fn put_text(out: &mut Vec<u8>, id: &[u8; 2], text: &Text) -> Result<(), AllocError>
    ensures { OnOk result (out.new.items ≡ out.old.items ++ field id.now text.now) }
{
    out.extend_from_slice(id)?;
    text.append_to(out)?;
    out.extend_from_slice(b"|")
}

/// Appends a field of a text, or nothing at all if the text is empty.
#[tactic(auto, unfolding(crate::specs::Parts::filled))]
pub fn put_filled(out: &mut Vec<u8>, id: &[u8; 2], text: &Text) -> Result<(), AllocError>
    ensures { OnOk result (out.new.items ≡ out.old.items ++ filled id.now text.now) }
{
    let text = text.as_bytes();
    if text.is_empty() {
        Ok(())
    } else {
        put_field(out, id, text)
    }
}

/// Gives the byte `1` for yes and `0` for no.
#[tactic(auto, unfolding(crate::specs::Parts::digit))]
pub fn digit(yes: bool) -> u8
    ensures { digit yes ≡ result ∷ [] }
{
    if yes { b'1' } else { b'0' }
}

/// Gives the byte `Y` for yes and `N` for no.
#[tactic(auto, unfolding(crate::specs::Parts::flag))]
pub fn flag(yes: bool) -> u8
    ensures { flag yes ≡ result ∷ [] }
{
    if yes { b'Y' } else { b'N' }
}

/// Appends a currency and an amount in hundredths, its point before the last two digits.
#[tactic(auto, unfolding(crate::specs::Parts::field))]
pub fn put_money(out: &mut Vec<u8>, currency: &[u8], hundredths: u128) -> Result<(), AllocError>
    ensures { OnOk result (out.new.items ≡ out.old.items ++ money currency.now hundredths) }
{
    put_field(out, b"BH", currency)?;
    out.extend_from_slice(b"BV")?;
    put_amount(out, hundredths)?;
    out.extend_from_slice(b"|")
}

/// An amount in hundredths. Most fit 64 bits, which are divided much faster than 128.
fn put_amount(out: &mut Vec<u8>, hundredths: u128) -> Result<(), AllocError>
    ensures { OnOk result (out.new.items ≡ out.old.items ++ amount_text hundredths) }
{
    match u64::try_from(hundredths) {
        Ok(few) => put_few(out, few),
        Err(_) => push_amount(out, hundredths),
    }
}

#[tactic(auto, unfolding(sip_reader::specs::Amounts::amount_text))]
fn put_few(out: &mut Vec<u8>, hundredths: u64) -> Result<(), AllocError>
    ensures { OnOk result (out.new.items ≡ out.old.items ++ amount_text hundredths) }
{
    out.extend_from_slice(Buffer::new().format(hundredths / 100).as_bytes())?;
    out.extend_from_slice(&point_and_cents(hundredths))
}

/// The point, and the two digits after it.
#[tactic(auto, using(crate::proofs::AmountDigits::two_digits))]
fn point_and_cents(hundredths: u64) -> [u8; 3]
    ensures { result ≡ codes "." ++ decimal (hundredths / 10 % 10) ++ decimal (hundredths % 10) }
{
    let tens = (hundredths / 10 % 10) as u8;
    let ones = (hundredths % 10) as u8;
    [b'.', b'0' + tens, b'0' + ones]
}

/// Appends error detection: AY, the sequence digit, AZ, and the sum of all bytes up to there.
#[tactic(auto, using(crate::proofs::Codes::sixteen), unfolding(crate::specs::Parts::hex_digits))]
pub fn put_detection(out: &mut Vec<u8>, sequence: u8) -> Result<(), AllocError>
    ensures { OnOk result (out.new.items ≡ with_sequence out.old.items (Some sequence)) }
{
    out.extend_from_slice(&[b'A', b'Y', sequence, b'A', b'Z'])?;
    let sum = usize::from(sum_of(out.as_slice()));
    out.extend_from_slice(&[
        HEX[sum / 4096],
        HEX[sum / 256 % 16],
        HEX[sum / 16 % 16],
        HEX[sum % 16],
    ])
}
