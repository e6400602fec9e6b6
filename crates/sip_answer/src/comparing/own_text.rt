//! A recorded response that equals the text of the answer: none of its fields has to be read.
//!
//! The ids and texts of an answer have no bar: their types promise that, so none of them is looked
//! through.

ghost use Rattle.std.specs.Prelude.{◌≡◌, ◌≤◌, [], ◌∷◌, true, IfSome};
ghost use Rattle.std.specs.Char.{is_ascii_digit};
ghost use Rattle.std.specs.Int.{IsInRange};
ghost use Rattle.std.specs.List.{list_all};
ghost use Rattle.std.specs.Option.{option_map_or};
ghost use Rattle.sip_reader.specs.Days.{FIRST_DAY, LAST_DAY};
ghost use Rattle.sip_reader.specs.declared.amount.TheConstants.{AMOUNT_MAX};
ghost use Rattle.sip_answer.specs.Devices.ReadBack.{ReadsBack, is_whole};
ghost use Rattle.sip_answer.specs.Differ.{Agrees};
ghost use Rattle.sip_answer.specs.Laws.{IsDate, LoanParts, loan_texts, patron_texts};
ghost use Rattle.sip_answer.specs.Texts.{answer_text};

use crate::answer::{Answer, KnownItem, KnownPatron, LoanAnswer, PatronAnswer};
use sip_reader::{Amount, Day, Id, STAMP_LEN, Stamp, Text, without_line_end};

/// True only if a recorded response agrees with an answer: it is the answer's own text, with CR or
/// LF after it. One that isn't may agree, too. A renewal of all items is never seen at once.
pub fn is_own_text(answer: &Answer, sequence: Option<u8>, text: &[u8], recorded: &[u8]) -> bool
    requires { text.now ≡ answer_text answer.now sequence }
    ensures { result ≡ true → Agrees answer.now recorded.now }
{
    without_line_end(recorded) == without_line_end(text) && agrees_with_itself(answer, sequence)
}

#[tactic(auto, using(crate::proofs::OwnTexts::own_agrees))]
fn agrees_with_itself(answer: &Answer, sequence: Option<u8>) -> bool
    ensures { result ≡ true → Agrees answer.now (answer_text answer.now sequence) }
{
    is_digit(sequence) && reads_back(answer)
}

fn is_digit(sequence: Option<u8>) -> bool
    ensures { result ≡ true → IfSome sequence (λ s. is_ascii_digit s ≡ true) }
{
    match sequence {
        Some(digit) => digit.is_ascii_digit(),
        None => true,
    }
}

fn reads_back(answer: &Answer) -> bool
    ensures { result ≡ true → ReadsBack answer.now }
{
    match answer {
        Answer::BlockPatron(a) => is_date(&a.date) && has_whole_names(a),
        Answer::Checkin(a) => is_date(&a.date),
        Answer::Checkout(a) => loan_reads_back(a),
        Answer::Hold(a) => is_date(&a.date),
        Answer::ItemStatus(a) => is_date(&a.date),
        Answer::PatronEnable(a) => is_date(&a.date) && has_whole_names(a),
        Answer::Renew(a) => loan_reads_back(a),
        Answer::FeePaid(a) => is_date(&a.date),
        Answer::RenewAll(_) => false,
        Answer::Resend => true,
    }
}

fn is_date(date: &Stamp) -> bool
    ensures { result ≡ true → IsDate date.now }
{
    date.as_bytes().len() == STAMP_LEN
}

fn loan_reads_back(answer: &LoanAnswer) -> bool
    ensures { result ≡ true → (list_all is_whole (loan_texts answer.now) ≡ true)
        × LoanParts answer.now }
{
    due_is_in_range(answer.due);
    rental_is_in_range(answer.rental);
    is_date(&answer.date) && has_whole_loan(answer)
}

fn due_is_in_range(due: Option<Day>)
    ensures { IfSome due (λ d. IsInRange FIRST_DAY LAST_DAY d) }
{
    if let Some(day) = due {
        let _number = day.number();
    }
}

fn rental_is_in_range(rental: Option<Amount>)
    ensures { IfSome rental (λ r. r ≤ AMOUNT_MAX) }
{
    if let Some(amount) = rental {
        let _hundredths = amount.hundredths();
    }
}

fn has_whole_names(answer: &PatronAnswer) -> bool
    ensures { result ≡ list_all is_whole (patron_texts answer.now) }
{
    id_is_whole(&answer.institution);
    id_is_whole(&answer.patron);
    name_is_whole(&answer.known);
    is_whole(&answer.currency)
}

fn name_is_whole(known: &Option<KnownPatron>)
    ensures { list_all is_whole (option_map_or (λ p. p.name ∷ []) known.now []) ≡ true }
{
    if let Some(patron) = known {
        text_is_whole(&patron.name);
    }
}

fn has_whole_loan(answer: &LoanAnswer) -> bool
    ensures { result ≡ list_all is_whole (loan_texts answer.now) }
{
    id_is_whole(&answer.institution);
    id_is_whole(&answer.patron);
    id_is_whole(&answer.item);
    item_is_whole(&answer.known);
    is_whole(&answer.currency)
}

fn item_is_whole(known: &Option<KnownItem>)
    ensures { list_all is_whole (option_map_or (λ i. i.title ∷ i.properties ∷ []) known.now [])
        ≡ true }
{
    if let Some(item) = known {
        text_is_whole(&item.title);
        text_is_whole(&item.properties);
    }
}

#[tactic(auto, using(crate::proofs::WholeTexts::id_whole))]
fn id_is_whole(id: &Id)
    ensures { is_whole id.now ≡ true }
{
    id.keeps_its_form();
}

#[tactic(auto, using(crate::proofs::WholeTexts::text_whole))]
fn text_is_whole(text: &Text)
    ensures { is_whole text.now ≡ true }
{
    text.keeps_its_form();
}

/// Whether no bar is among the bytes.
fn is_whole(text: &[u8]) -> bool
    ensures { result ≡ is_whole text.now }
{
    !text.contains(&b'|')
}
