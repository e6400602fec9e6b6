//! An entry of `class` or of `media` in a policy file.

ghost use Rattle.std.specs.Prelude.{◌≡◌, Err, IfOk, map};
ghost use Rattle.std.specs.Int.{IsInRange};
ghost use Rattle.toml.specs.View.{table_view};
ghost use Rattle.circ_policy.specs.Reading.{Fails, Gives, amount, breaks, limit, only, whole, within};
ghost use Rattle.circ_policy.specs.Terms.{Terms};

use crate::document::{value_at, within};
use crate::error::PolicyError;
use crate::unknown::least_unknown;
use crate::values::whole_of;
use sip_reader::{AMOUNT_MAX, Amount};
use std::alloc::Global;
use toml::Table;

/// The greatest number of loans or renewals that a class may allow.
const LIMIT_MAX: u64 = 9_999;

/// An entry of a section, such as `class.A`.
#[derive(Clone, Copy)]
pub(crate) struct Entry<'a> {
    /// `class` or `media`.
    pub section: &'a str,
    pub name: &'a str,
    pub table: &'a Table,
}

impl Entry<'_> {
    /// Refuses the entry by its least unknown key, if it has a key that isn't among the known ones.
    #[tactic(auto, unfolding(crate::specs::Reading::only))]
    pub fn has_only(&self, alloc: Global, known: &[&str]) -> Result<(), PolicyError>
        ensures { Gives (λ u. u) result
            (only (map (λ k. k.now) known.now) (within self.now.section.now self.now.name.now)
            (table_view self.now.table.now)) }
    {
        match least_unknown(self.table, known) {
            Some(key) => Err(self.refusal(alloc, key.as_str())),
            None => Ok(()),
        }
    }

    /// Gives the whole number at a key if it is from low to high; else refuses the key.
    #[tactic(auto, unfolding(crate::specs::Reading::whole))]
    pub fn whole_at(
        &self,
        alloc: Global,
        key: &str,
        low: u64,
        high: u64,
    ) -> Result<u64, PolicyError>
        ensures value { Gives (λ n. n) result
            (whole low high (within self.now.section.now self.now.name.now)
            (table_view self.now.table.now) key.now) }
        ensures range { IfOk result (λ n. IsInRange low high n) }
    {
        match whole_of(low, high, value_at(self.table, key)) {
            Some(number) => Ok(number),
            None => Err(self.refusal(alloc, key)),
        }
    }

    /// Gives the limit at a key if it is 0 to 9,999; else refuses the key.
    pub fn limit_at(&self, alloc: Global, key: &str) -> Result<u32, PolicyError>
        ensures { Gives (λ n. n) result
            (limit (within self.now.section.now self.now.name.now)
            (table_view self.now.table.now) key.now) }
    {
        match self.whole_at(alloc, key, 0, LIMIT_MAX) {
            Ok(number) => Ok(number as u32),
            Err(e) => Err(e),
        }
    }

    /// Gives the amount at a key, in hundredths; refuses the key if none is there.
    pub fn amount_at(&self, alloc: Global, key: &str) -> Result<Amount, PolicyError>
        ensures { Gives (λ n. n) result
            (amount (within self.now.section.now self.now.name.now)
            (table_view self.now.table.now) key.now) }
    {
        match self.whole_at(alloc, key, 0, AMOUNT_MAX) {
            Ok(hundredths) => Ok(Amount::new(hundredths).unwrap()),
            Err(e) => Err(e),
        }
    }

    /// The refusal that names a key of the entry.
    fn refusal(&self, alloc: Global, key: &str) -> PolicyError
        ensures { Fails {X = Terms} result
            (Err (breaks (within (within self.now.section.now self.now.name.now) key.now))) }
    {
        match within(alloc, self.section, self.name) {
            Ok(name) => broken_within(alloc, name.as_str(), key),
            Err(_) => PolicyError::Memory,
        }
    }
}

/// The refusal that names a key inside a table.
pub(crate) fn broken_within(alloc: Global, table: &str, key: &str) -> PolicyError
    ensures { Fails {X = Terms} result (Err (breaks (within table.now key.now))) }
{
    match within(alloc, table, key) {
        Ok(key) => PolicyError::Rule { key },
        Err(_) => PolicyError::Memory,
    }
}
