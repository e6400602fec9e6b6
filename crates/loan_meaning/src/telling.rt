//! What is answered to a checkout and to a renewal.

ghost use Rattle.std.specs.Prelude.{◌≡◌, IfOk, option_map};
ghost use Rattle.read_set.specs.Asks.{Done};
ghost use Rattle.read_set.specs.Loans.{known_item, loan_answer, refused, rental_for};
ghost use Rattle.read_set.specs.Stops.{Follows};

use crate::asked::LoanContext;
use crate::fees::nothing;
use read_set::{Article, Effect, Stop};
use sip_answer::{Answer, KnownItem, LoanAnswer, Reason};
use sip_reader::{Amount, Day};
use std::alloc::AllocError;

fn show(article: Option<&Article>) -> Result<Option<KnownItem>, AllocError>
    ensures { IfOk result (λ s. s ≡ option_map (λ x. known_item x.now.item) article.entry) }
{
    let Some(article) = article else {
        return Ok(None);
    };
    let item = article.item.get();
    Ok(Some(KnownItem {
        title: item.title.clone()?,
        media: item.media,
        properties: item.properties.clone()?,
    }))
}

/// The answer to what is asked for, by its kind. It is made in one piece, and inlined where an effect is made, since moving it costs as much
/// as making it.
#[inline(always)]
pub fn tell(
    asked: &LoanContext<'_>,
    article: Option<&Article>,
    due: Option<Day>,
    renewed: bool,
    rental: Amount,
    reason: Reason,
) -> Result<Answer, AllocError>
    ensures { IfOk result (λ answer. answer ≡ loan_answer asked.now.policy.now asked.now.request asked.now.date (option_map (λ x. x.now.item) article.entry) due renewed rental reason) }
{
    let answer = LoanAnswer {
        date: asked.date,
        institution: asked.policy.institution().clone()?,
        patron: asked.request.patron.clone()?,
        item: asked.request.item.clone()?,
        known: show(article)?,
        due,
        due_form: asked.policy.due_form(),
        renewed,
        rental: (rental.hundredths() > 0).then_some(rental),
        currency: asked.policy.currency(),
        reason,
    };
    if asked.request.checkout {
        Ok(Answer::Checkout(answer))
    } else {
        Ok(Answer::Renew(answer))
    }
}

/// The rental for which a request is refused; nothing for another reason.
fn rental_for(reason: Reason, article: &Option<Article>) -> Amount
    ensures { result ≡ rental_for reason article.now }
{
    match (reason, article) {
        (Reason::Rental, Some(article)) => article.media.rental,
        _ => nothing(),
    }
}

/// A refusal, with the rental where it is for one.
#[tactic(auto, unfolding(read_set::specs::Loans::refused))]
pub fn refuse(
    asked: &LoanContext<'_>,
    article: Option<Article>,
    reason: Reason,
) -> Result<Effect, Stop>
    ensures { Follows result (Done (refused asked.now.policy.now asked.now.request asked.now.date article reason)) }
{
    let rental = rental_for(reason, &article);
    let answer = tell(asked, article.as_ref(), None, false, rental, reason)?;
    Ok(Effect::unwritten(asked.alloc, Some(answer)))
}
