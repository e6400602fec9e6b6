//! Answers as bytes.
//!
//! If memory runs out, the text may have a part of an answer. `write_answer` drops it, and
//! `put_answer` clears it, so the contracts of the functions that append the parts say nothing of
//! that case.

ghost use Rattle.std.specs.Prelude.{◌≡◌, ◌++◌, [], IfOk, OnErr, OnOk};
ghost use Rattle.sip_answer.specs.Texts.{answer_text};

mod dates;
mod items;
mod loans;
mod parts;
mod patrons;

use crate::answer::Answer;
pub(crate) use parts::COUNT_MAX;
use parts::put_detection;
use std::alloc::{AllocError, Global};

/// The capacity of a text at first, in bytes. Most answers are shorter; a longer one grows.
const USUAL_LEN: usize = 256;

/// Gives exactly an answer's bytes, as a table has them: without the carriage return. If the
/// request had a sequence digit, they end in the error detection of SIP 2.00 with that digit; the
/// request to send again never does.
pub fn write_answer(
    alloc: Global,
    answer: &Answer,
    sequence: Option<u8>,
) -> Result<Vec<u8>, AllocError>
    ensures { IfOk result (λ v. v.items ≡ answer_text answer.now sequence) }
{
    let mut out = Vec::with_capacity(alloc, USUAL_LEN)?;
    put_answer(&mut out, answer, sequence)?;
    Ok(out)
}

/// Puts just what `write_answer` gives in place of what `text` had: so one piece of memory serves
/// for answer after answer. Out of memory, `text` is empty.
pub fn put_answer(
    text: &mut Vec<u8>,
    answer: &Answer,
    sequence: Option<u8>,
) -> Result<(), AllocError>
    ensures ok { OnOk result (text.new.items ≡ answer_text answer.now sequence) }
    ensures err { OnErr result (text.new.items ≡ []) }
{
    if let Err(error) = put_whole(text, answer, sequence) {
        text.clear();
        return Err(error);
    }
    Ok(())
}

/// An answer's bytes in place of what `out` had. The request to send again always has the same.
#[inline(always)]
#[tactic(auto, unfolding(crate::specs::Texts::answer_text))]
fn put_whole(out: &mut Vec<u8>, answer: &Answer, sequence: Option<u8>) -> Result<(), AllocError>
    ensures { OnOk result (out.new.items ≡ answer_text answer.now sequence) }
{
    out.clear();
    match answer {
        Answer::BlockPatron(a) => patrons::put_block_patron(out, a)?,
        Answer::Checkin(a) => items::put_checkin(out, a)?,
        Answer::Checkout(a) => loans::put_loan(out, b"12", a)?,
        Answer::Hold(a) => items::put_hold(out, a)?,
        Answer::ItemStatus(a) => items::put_item_status(out, a)?,
        Answer::PatronEnable(a) => patrons::put_patron(out, b"26", a)?,
        Answer::Renew(a) => loans::put_loan(out, b"30", a)?,
        Answer::FeePaid(a) => patrons::put_fee_paid(out, a)?,
        Answer::RenewAll(a) => loans::put_renew_all(out, a)?,
        Answer::Resend => return out.extend_from_slice(b"96AZFEF6"),
    }
    match sequence {
        Some(digit) => put_detection(out, digit),
        None => Ok(()),
    }
}
