//! What a replay begins with.

ghost use Rattle.std.specs.Prelude.{◌≡◌, ◌+◌, ◌≤◌, ◌^◌, ◌&&◌, ℕ, List, [], IfOk, IfSome, is_some, length, map, nat_le, nat_lt, option_copied};
ghost use Rattle.std.specs.List.Sorted.{IsStrictlySortedBy};
ghost use Rattle.sip_reader.specs.Texts.{line_number_end};
ghost use Rattle.circ_records.specs.Coherent.{Coherent, number_before};
ghost use Rattle.circ_records.specs.Keys.{key_cmp};
ghost use Rattle.circ_records.specs.Records.{record_at};
ghost use Rattle.journal_table.specs.Entry.{Entry};
ghost use Rattle.journal_table.specs.Readings.{first_read, reading_at as reading_in, readings_of as all_read};
ghost use Rattle.journal_table.specs.declared.TheConstants.{LINE_LIMIT};
ghost use Rattle.read_set.specs.Coherence.{StaysCoherent};
ghost use Rattle.read_set.specs.Plans.{deed_at, deeds_of, plan_over, plan_of, plan_read, reading_at};
ghost use Rattle.read_set.specs.declared.way.Way.{Way};
ghost use Rattle.sip_answer.specs.Deeds.{FitsDeed};

use crate::deeds::Deeds;
use circ_policy::Policy;
use circ_records::{Key, Record, RecordMap, Records};
use journal_table::Readings;
use sip_answer::Deed;
use sip_reader::{LINE_NUMBER_END, Reading};
use std::alloc::{AllocError, Global};
use std::marker::{Brand, Model};
use std::ops::Range;

/// The policy, the records before the first line, the reading of each line, and what its response says was done.
pub struct Plan {
    policy: Policy,
    base: Records,
    first: u64,
    readings: Readings,
    deeds: Deeds,
}

impl Drop for Plan {
    fn drop(self) {
        let Plan {
            policy: _,
            base: _,
            first: _,
            readings: _,
            deeds: _,
        } = self;
    }
}

impl Model for Plan {
    ghost use Rattle.std.specs.Prelude.{◌+◌, ◌≤◌, length, map};
    ghost use Rattle.sip_reader.specs.Texts.{line_number_end};
    ghost use Rattle.journal_table.specs.Readings.{reading_at};
    ghost use Rattle.journal_table.specs.declared.TheConstants.{LINE_LIMIT};
    ghost use Rattle.read_set.specs.Coherence.{FitsPlan};
    ghost use Rattle.read_set.specs.Plans.{Planned};

    ghost Value = { Planned };

    ghost view = { λ p. record { policy = p.policy; base = p.base; first = p.first; readings = map reading_at p.readings; deeds = p.deeds } };

    ghost invariant = { λ p. (p.first + length p.readings ≤ line_number_end) × (length p.readings ≤ LINE_LIMIT) × FitsPlan (record { policy = p.policy; base = p.base; first = p.first; readings = map reading_at p.readings; deeds = p.deeds }) };
}

impl Plan {
    /// The plan of what the requests of a journal were read as and its responses say was done, over
    /// a base that is coherent before the first of them.
    pub fn from_readings(policy: Policy, base: Records, readings: Readings, deeds: Deeds) -> Plan
        requires { Coherent policy (number_before (first_read readings)) base }
        ensures value { result ≡ plan_read policy base readings deeds }
        ensures journal { (way : Way) (lines : List Entry) → readings ≡ all_read lines → deeds ≡ deeds_of way policy.due_form lines → result ≡ plan_of way policy base lines }
    {
        let first = readings.first().unwrap_or(LINE_NUMBER_END);
        // Called for their contracts alone: there are at most `LINE_LIMIT` lines, each read from a message; the policy's terms
        // are in their ranges; the number of records fits into a count; and days and fees of deeds are in their ranges.
        let _lines = readings.len();
        let _currency = policy.currency();
        let _records = base.as_slice();
        deeds.keep_their_form();
        Plan {
            policy,
            base,
            first,
            readings,
            deeds,
        }
    }

    /// The policy.
    pub fn policy(&self) -> &Policy
        ensures { result.now ≡ self.now.policy }
    {
        &self.policy
    }

    /// The number of the first line; the numbers of the others rise from it by one. Without lines it is 10,000,000,000.
    pub fn first(&self) -> u64
        ensures { result ≡ self.now.first }
    {
        self.first
    }

    /// The numbers of the lines, rising: from the first line's to the one after the last's, at most 10,000,000,000. The
    /// records before each of them, and those after the last line, are coherent.
    pub fn numbers(&self) -> Range<u64>
        ensures start { result.start ≡ self.now.first }
        ensures end { result.end ≡ self.now.first + length self.now.readings }
        ensures lines { (n : ℕ) → is_some (reading_at self.now n) ≡ (nat_le result.start n && nat_lt n result.end) }
        ensures within { result.end ≤ line_number_end }
        ensures coherent { StaysCoherent self.now }
    {
        self.first..self.first + self.readings.len() as u64
    }

    /// What the lines are read as, in their order.
    pub fn readings(&self) -> &Readings
        ensures readings { map reading_in result.now ≡ self.now.readings }
        ensures numbered { self.now.first + length self.now.readings ≤ 2 ^ 64 }
        ensures few { length self.now.readings ≤ LINE_LIMIT }
    {
        &self.readings
    }

    /// What the line of a number is read as.
    pub fn reading(&self, line: u64) -> Option<&Reading>
        ensures { option_copied result ≡ reading_at self.now line }
    {
        if line < self.first {
            return None;
        }
        self.readings.get((line - self.first) as usize)
    }

    /// What the response of the line of a number says was done, if that counts.
    pub fn deed(&self, line: u64) -> Option<&Deed>
        ensures value { option_copied result ≡ deed_at self.now line }
        ensures fits { IfSome (option_copied result) FitsDeed }
    {
        self.deeds.get(line.saturating_sub(self.first) as usize)
    }

    /// The keys of the records before the first line, rising, each with its record. These records are coherent before it.
    pub fn keys(&self) -> &[(Key, Record)]
        ensures keys { result.now ≡ self.now.base }
        ensures rising { IsStrictlySortedBy key_cmp (map (λ e. e.0) self.now.base) }
        ensures coherent { Coherent self.now.policy self.now.first self.now.base }
    {
        self.base.as_slice()
    }

    /// The record at a key before the first line.
    pub fn base(&self, key: &Key) -> Option<&Record>
        ensures { option_copied result ≡ record_at self.now.base key.now }
    {
        self.base.get(key.as_ref())
    }

    /// An empty map with position hints for the keys of the base: records that are put at all of these in order are found fast.
    pub fn empty_map(&self, alloc: Global) -> Result<RecordMap, AllocError>
        ensures { IfOk result (λ m. m ≡ []) }
    {
        self.base.empty_map(alloc)
    }

    /// Moves the records before the first line out of the plan, which is then that of the same lines over no records.
    pub fn take_base(&mut self, alloc: Global) -> RecordMap
        ensures records { result ≡ self.old.base }
        ensures left { self.new ≡ plan_over self.old [] }
    {
        self.base.take(alloc)
    }
}

/// A type that represents one plan, so that contracts can name it. Each run has a type of its own.
pub trait PlanName {
    ghost use Rattle.read_set.specs.Plans.{Planned};

    ghost plan: { Planned };
}

impl PlanName for Brand {
    ghost use Rattle.read_set.specs.Plans.{no_plan};

    ghost plan = { no_plan };
}
