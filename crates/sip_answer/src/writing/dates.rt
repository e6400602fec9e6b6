//! Dates in their three forms.

ghost use Rattle.std.specs.Prelude.{◌≡◌, ◌++◌, ◌<◌, OnOk, [], codes};
ghost use Rattle.std.specs.Option.{option_map_or};
ghost use Rattle.sip_answer.specs.DueDates.{due_text, two_digits};
ghost use Rattle.sip_answer.specs.Parts.{field};

use circ_policy::DueForm;
use sip_reader::Day;
use std::alloc::AllocError;

/// Appends the field of a due date in this form, with an empty text if there is none.
#[tactic(auto, unfolding(crate::specs::Parts::field))]
pub fn put_due(out: &mut Vec<u8>, form: DueForm, due: Option<Day>) -> Result<(), AllocError>
    ensures { OnOk result (out.new.items ≡ out.old.items
        ++ field (codes "AH") (option_map_or (due_text form) due [])) }
{
    out.extend_from_slice(b"AH")?;
    if let Some(day) = due {
        put_date(out, form, day)?;
    }
    out.extend_from_slice(b"|")
}

#[tactic(auto, unfolding(crate::specs::DueDates::due_text, crate::specs::DueDates::four_digits))]
fn put_date(out: &mut Vec<u8>, form: DueForm, day: Day) -> Result<(), AllocError>
    ensures { OnOk result (out.new.items ≡ out.old.items ++ due_text form day) }
{
    let (year, month, day) = day.parts();
    let [c, x] = two_digits(year / 100);
    let [y, z] = two_digits(year % 100);
    let [m, n] = two_digits(u16::from(month));
    let [d, e] = two_digits(u16::from(day));
    match form {
        DueForm::Sip => out.extend_from_slice(&[
            c, x, y, z, m, n, d, e, b' ', b' ', b' ', b' ', b'2', b'3', b'5', b'9', b'0', b'0',
        ]),
        DueForm::Iso => out.extend_from_slice(&[c, x, y, z, b'-', m, n, b'-', d, e]),
        DueForm::Us => out.extend_from_slice(&[m, n, b'/', d, e, b'/', c, x, y, z]),
    }
}

/// Gives the two digits of a number below 100, the first `0` if it is below 10.
#[tactic(auto, unfolding(crate::specs::DueDates::two_digits))]
pub fn two_digits(n: u16) -> [u8; 2]
    requires { n < 100 }
    ensures { result ≡ two_digits n }
{
    [b'0' + (n / 10) as u8, b'0' + (n % 10) as u8]
}
