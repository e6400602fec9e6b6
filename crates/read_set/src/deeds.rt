//! What the recorded responses of a journal say was done.

ghost use Rattle.std.specs.Prelude.{◌≡◌, IfOk, IfSome, [], option_copied, slice_get, unwrap_or, None};
ghost use Rattle.std.specs.List.{AllByRecursion};
ghost use Rattle.journal_table.specs.Readings.{readings_of};
ghost use Rattle.read_set.specs.Coherence.{HasFitDeed};
ghost use Rattle.read_set.specs.Plans.{deed_read, deeds_of};
ghost use Rattle.read_set.specs.declared.way.Way.TheVariants as ways;
ghost use Rattle.sip_answer.specs.Deeds.{FitsDeed};

use crate::way::Way;
use circ_policy::DueForm;
use journal_table::{Journal, Readings};
use sip_answer::{Deed, deed_of};
use sip_reader::Reading;
use std::alloc::{AllocError, Global};
use std::marker::Model;

/// The deed of each line, if it has one; by the rules none has.
pub struct Deeds {
    deeds: Vec<Option<Deed>>,
}

impl Drop for Deeds {
    fn drop(self) {
        let Deeds { deeds: _ } = self;
    }
}

impl Model for Deeds {
    ghost use Rattle.std.specs.Prelude.{List, Option};
    ghost use Rattle.std.specs.List.{AllByRecursion};
    ghost use Rattle.read_set.specs.Coherence.{HasFitDeed};
    ghost use Rattle.sip_answer.specs.declared.deed.Deed.{Deed};

    ghost Value = { List (Option Deed) };

    ghost view = { λ o. o.deeds.items };

    ghost invariant = { λ o. AllByRecursion HasFitDeed o.deeds.items };
}

impl Deeds {
    /// No line has a deed.
    pub fn none(alloc: Global) -> Deeds
        ensures { result ≡ [] }
    {
        Deeds {
            deeds: Vec::new(alloc),
        }
    }

    /// The deeds of a journal's lines, whose requests were read as these. The error is that memory ran out.
    #[tactic(auto, unfolding(crate::specs::Plans::deeds_of))]
    pub fn of(
        alloc: Global,
        way: Way,
        form: DueForm,
        journal: &Journal,
        readings: &Readings,
    ) -> Result<Deeds, AllocError>
        ensures { IfOk result (λ o. readings.now ≡ readings_of journal.now → o ≡ deeds_of way form journal.now) }
    {
        match way {
            Way::ByRules => Ok(Deeds::none(alloc)),
            Way::AsRecorded => Deeds::told(alloc, form, journal, readings),
        }
    }

    /// What each response says was done.
    fn told(
        alloc: Global,
        form: DueForm,
        journal: &Journal,
        readings: &Readings,
    ) -> Result<Deeds, AllocError>
        ensures { IfOk result (λ o. readings.now ≡ readings_of journal.now → o ≡ deeds_of ways.AsRecorded form journal.now) }
    {
        let lines = journal.lines();
        let mut deeds = Vec::with_capacity(alloc, lines.len())?;
        for (place, line) in lines.iter().enumerate() {
            let deed = deed_told(alloc, form, readings.get(place), line.parts().response)?;
            deeds.push(deed)?;
        }
        Ok(Deeds { deeds })
    }

    /// Does nothing. Its contract says what the type promises: days and fees are in their ranges.
    pub fn keep_their_form(&self)
        ensures { AllByRecursion HasFitDeed self.now }
    {
        let _deeds = &self.deeds;
    }

    /// The deed of the line at a position, counted from 0.
    pub fn get(&self, place: usize) -> Option<&Deed>
        ensures value { option_copied result ≡ unwrap_or (slice_get self.now place) None }
        ensures fits { IfSome (option_copied result) FitsDeed }
    {
        match self.deeds.get(place) {
            Some(Some(deed)) => Some(deed),
            _ => None,
        }
    }
}

/// What a response says was done, if its request was read.
fn deed_told(
    alloc: Global,
    form: DueForm,
    reading: Option<&Reading>,
    response: &[u8],
) -> Result<Option<Deed>, AllocError>
    ensures value { IfOk result (λ o. o ≡ deed_read form (option_copied reading.entry) response.now) }
    ensures fits { IfOk result HasFitDeed }
{
    match reading {
        Some(Reading::Asked(request)) => deed_of(alloc, form, &request.act, response),
        _ => Ok(None),
    }
}
