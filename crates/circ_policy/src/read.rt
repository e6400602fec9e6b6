//! Reading a policy file.

ghost use Rattle.std.specs.Prelude.{◌≡◌, map};
ghost use Rattle.toml.specs.View.{table_view};
ghost use Rattle.circ_policy.specs.Order.{least_unknown};
ghost use Rattle.circ_policy.specs.Reading.{Gives, currency_at, due_form_at, institution_in, known_keys, policy_in, policy_of, unknown};

use crate::POLICY_KEYS;
use crate::closed::read_calendar;
use crate::document::{broken, document, text_at};
use crate::due_form::DueForm;
use crate::error::PolicyError;
use crate::policy::Policy;
use crate::sections::{read_classes, read_media_types};
use crate::unknown::least_unknown;
use crate::values::{currency_of, due_form_of};
use sip_reader::Id;
use std::alloc::Global;
use toml::Table;

impl Policy {
    /// Reads the policy from the bytes of a file, or gives exactly the first rule that they break.
    /// They are TOML, with the keys `institution`, `currency`, `due_form`, `class` and `media` and,
    /// optionally, `closed_weekdays` and `closed_dates`; money is in hundredths.
    ///
    /// An error names the first rule that is broken, in this order: no unknown key, the keys in the
    /// order above with the closed days before the classes, each class and each type of media in
    /// byte order of their names.
    pub fn read(alloc: Global, bytes: &[u8]) -> Result<Policy, PolicyError>
        ensures { Gives (λ p. p) result (policy_of bytes.now) }
    {
        match document(alloc, bytes) {
            Ok(table) => read_policy(alloc, &table),
            Err(e) => Err(e),
        }
    }
}

/// The policy that a document holds.
#[tactic(auto, unfolding(crate::specs::Reading::policy_in))]
fn read_policy(alloc: Global, table: &Table) -> Result<Policy, PolicyError>
    ensures { Gives (λ p. p) result (policy_in (table_view table.now)) }
{
    knows_keys(alloc, table)?;
    let institution = read_institution(alloc, table)?;
    let currency = read_currency(alloc, table)?;
    let due_form = read_due_form(alloc, table)?;
    let calendar = read_calendar(alloc, table)?;
    let classes = read_classes(alloc, table)?;
    let media = read_media_types(alloc, table)?;
    Ok(Policy {
        institution,
        currency,
        due_form,
        calendar,
        classes,
        media,
    })
}

/// Refuses the document if it has a key that no policy has.
fn knows_keys(alloc: Global, table: &Table) -> Result<(), PolicyError>
    ensures { Gives (λ u. u) result (known_keys (table_view table.now)) }
{
    has_only(alloc, table, &POLICY_KEYS)
}

/// Refuses the document if it has a key that isn't among the known ones.
fn has_only(alloc: Global, table: &Table, known: &[&str]) -> Result<(), PolicyError>
    ensures { Gives (λ u. u) result
        (unknown (least_unknown (map (λ k. k.now) known.now) (table_view table.now))) }
{
    match least_unknown(table, known) {
        Some(key) => Err(broken(alloc, key.as_str())),
        None => Ok(()),
    }
}

#[tactic(auto, unfolding(crate::specs::Reading::institution_in))]
fn read_institution(alloc: Global, table: &Table) -> Result<Id, PolicyError>
    ensures { Gives (λ i. i) result (institution_in (table_view table.now)) }
{
    match text_at(table, "institution") {
        Some(text) => match Id::read(alloc, text.as_bytes())? {
            Some(institution) => Ok(institution),
            None => Err(broken(alloc, "institution")),
        },
        None => Err(broken(alloc, "institution")),
    }
}

#[tactic(auto, unfolding(crate::specs::Reading::currency_at))]
fn read_currency(alloc: Global, table: &Table) -> Result<[u8; 3], PolicyError>
    ensures { Gives (λ c. c) result (currency_at (table_view table.now)) }
{
    match text_at(table, "currency") {
        Some(text) => match currency_of(text) {
            Some(currency) => Ok(currency),
            None => Err(broken(alloc, "currency")),
        },
        None => Err(broken(alloc, "currency")),
    }
}

#[tactic(auto, unfolding(crate::specs::Reading::due_form_at))]
fn read_due_form(alloc: Global, table: &Table) -> Result<DueForm, PolicyError>
    ensures { Gives (λ f. f) result (due_form_at (table_view table.now)) }
{
    match text_at(table, "due_form") {
        Some(text) => match due_form_of(text) {
            Some(form) => Ok(form),
            None => Err(broken(alloc, "due_form")),
        },
        None => Err(broken(alloc, "due_form")),
    }
}
