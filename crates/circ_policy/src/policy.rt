//! The policy of a library.

ghost use Rattle.std.specs.Prelude.{◌≡◌, ◌≤◌, ◌<◌, ◌+◌};
ghost use Rattle.sip_reader.specs.Days.{LAST_STAMP_DAY};
ghost use Rattle.circ_policy.specs.Due.{FIRST_DAY_OF_9999};

use crate::calendar::Calendar;
use crate::class::Class;
use crate::due_form::DueForm;
use crate::media::Media;
use crate::media_type::MediaType;
use sip_reader::{Day, Id};
use std::marker::Model;

/// What a library grants its patrons, and what it charges for it.
pub struct Policy {
    pub(crate) institution: Id,
    pub(crate) currency: [u8; 3],
    pub(crate) due_form: DueForm,
    pub(crate) calendar: Calendar,
    /// The classes with their names, in byte order of these.
    pub(crate) classes: Vec<(Id, Class)>,
    pub(crate) media: Vec<(MediaType, Media)>,
}

impl Drop for Policy {
    fn drop(self) {
        let Policy {
            institution: _,
            currency: _,
            due_form: _,
            calendar: _,
            classes: _,
            media: _,
        } = self;
    }
}

impl Model for Policy {
    ghost use Rattle.circ_policy.specs.Calendars.{closed_of};
    ghost use Rattle.circ_policy.specs.Order.{HaveRisingNames};
    ghost use Rattle.circ_policy.specs.Ranges.{AllFit};
    ghost use Rattle.circ_policy.specs.Terms.{Terms};

    ghost Value = { Terms };

    ghost view = { λ p. record { institution = p.institution; currency = p.currency; due_form = p.due_form; closed = closed_of p.calendar; classes = p.classes.items; media = p.media.items } };

    ghost invariant = { λ p. HaveRisingNames p.classes.items × AllFit p.media.items };
}

impl Policy {
    ghost use Rattle.circ_policy.specs.Due.{IsLeastOpen, due_day};
    ghost use Rattle.circ_policy.specs.Policy.{class_of, media_of};
    ghost use Rattle.circ_policy.specs.Ranges.{FitsPolicy};

    /// Gives the library's id, as the file has it.
    pub fn institution(&self) -> &Id
        ensures { result.now ≡ self.now.institution }
    {
        &self.institution
    }

    /// Gives the currency of all amounts, the three letters that the file has. The contract also
    /// says that the terms of each type of media are in their ranges.
    pub fn currency(&self) -> [u8; 3]
        ensures value { result ≡ self.now.currency }
        ensures ranges { FitsPolicy self.now }
    {
        self.currency
    }

    /// Gives the form of due dates that the file names.
    pub fn due_form(&self) -> DueForm
        ensures { result ≡ self.now.due_form }
    {
        self.due_form
    }

    /// Gives the limits of the class of this name; None exactly if the policy has no such class.
    #[tactic(auto, unfolding(crate::specs::Policy::class_of))]
    pub fn class(&self, name: &Id) -> Option<Class>
        ensures { result ≡ class_of self.now name.now }
    {
        let classes = self.classes.as_slice();
        match classes.binary_search_by(|class| class.0.cmp(name)) {
            Ok(position) => Some(classes[position].1),
            Err(_) => None,
        }
    }

    /// Gives the terms of this type of media; None exactly if the policy hasn't this type.
    #[tactic(auto, unfolding(crate::specs::Policy::media_of))]
    pub fn media(&self, media: MediaType) -> Option<Media>
        ensures { result ≡ media_of self.now media }
    {
        self.media
            .iter()
            .find(|entry| entry.0 as usize == media as usize)
            .map(|entry| entry.1)
    }

    /// The due day of a loan that is made on this day: the least open day at or after the day plus
    /// the days of the media type. It is before the year 9999.
    pub fn due(&self, day: Day, media: &Media) -> Day
        requires { day ≤ LAST_STAMP_DAY }
        ensures least { IsLeastOpen self.now.closed (day + media.now.days) result }
        ensures value { result ≡ due_day self.now day media.now }
        ensures early { result < FIRST_DAY_OF_9999 }
    {
        let calendar = &self.calendar;
        let first = day.number() + u32::from(media.days.count());
        for number in first..first + 2807 {
            let is_closed_weekday = calendar.closed_weekdays[(number % 7) as usize];
            if !is_closed_weekday && !calendar.closed_dates.contains(&number) {
                return Day::numbered(number).unwrap();
            }
        }
        unreachable!()
    }
}
