//! The records as they are while lines are replayed.

ghost use Rattle.std.specs.Prelude.{◌≡◌};

use circ_records::{Key, LikelyPositions, Record, RecordMap, Records};
use read_set::{Plan, Source, Stop, Writes, named_by};
use sip_reader::Reading;
use std::alloc::{AllocError, Global};
use std::marker::Model;

/// The records after the lines so far: those before the first line, except where these lines wrote others. They are in one map, so that each
/// is found by one look-up.
pub struct Live {
    records: RecordMap,
}

impl Drop for Live {
    fn drop(self) {
        let Live { records: _ } = self;
    }
}

impl Model for Live {
    ghost use Rattle.circ_records.specs.Records.{Entries};

    ghost Value = { Entries };

    ghost view = { λ l. l.records };
}

impl Live {
    ghost use Rattle.std.specs.Prelude.{IfOk, OnOk, option_copied};
    ghost use Rattle.circ_records.specs.Records.{AreRising, record_at};
    ghost use Rattle.circ_records.specs.declared.key.Key.{Key};
    ghost use Rattle.read_set.specs.Maps.{put};

    /// The records before the first line, copied: the plan keeps its own. Their keys rise, so each goes after the others.
    pub fn over(alloc: Global, plan: &Plan) -> Result<Live, AllocError>
        ensures { IfOk result (λ live. (k : Key) → record_at live k ≡ record_at plan.now.base k) }
    {
        let mut records = plan.empty_map(alloc)?;
        let keys = plan.keys();
        for entry in keys {
            let key = entry.0.clone()?;
            let record = entry.1.copy()?;
            records.put(alloc, key, record)?;
        }
        Ok(Live { records })
    }

    /// These records, not copied: what lines write changes them in place.
    pub fn of(records: RecordMap) -> Live
        ensures { result ≡ records }
    {
        Live { records }
    }

    /// The record at a key.
    pub fn get(&self, key: &Key) -> Option<&Record>
        ensures { option_copied result ≡ record_at self.now key.now }
    {
        self.records.get(key.as_ref())
    }

    /// Where the records that a reading names likely are.
    pub fn likely(&self, reading: Option<&Reading>) -> LikelyPositions {
        let (patron, item) = match reading {
            Some(Reading::Asked(request)) => named_by(&request.act),
            _ => (None, None),
        };
        self.records.likely(patron, item)
    }

    /// Reads the records at these positions, so that rules wait for memory less.
    pub fn read_ahead(&mut self, likely: &[LikelyPositions])
        ensures { self.new ≡ self.old }
    {
        self.records.read_ahead(likely);
    }

    /// From now on looks for a patron or an item at these positions first.
    pub fn expect(&mut self, likely: LikelyPositions)
        ensures { self.new ≡ self.old }
    {
        self.records.expect(likely);
    }

    /// Puts what a line writes over the records. Out of memory, part of it may be there: the caller drops all records then.
    pub fn put(&mut self, writes: Writes) -> Result<(), AllocError>
        ensures { OnOk result ((k : Key) → record_at self.new k ≡ put writes (record_at self.old) k) }
    {
        let mut left = writes.into_vec();
        let alloc = *left.allocator();
        while let Some((key, written)) = left.pop() {
            self.records.put(alloc, key, written)?;
        }
        Ok(())
    }

    /// The records, as a list that rises by key.
    pub fn into_records(self, alloc: Global) -> Result<Records, AllocError>
        ensures same { IfOk result (λ r. r ≡ self) }
        ensures rising { IfOk result AreRising }
    {
        let Live { records } = self;
        Records::from_map(alloc, records)
    }
}

impl Source for Live {
    ghost use Rattle.std.specs.Prelude.{Some, ⊤};
    ghost use Rattle.circ_records.specs.Records.{record_at};

    ghost has = { λ live k. Some (record_at live k) };

    ghost one_by_one = { ⊤ };

    #[tactic(auto, using(read_set::proofs::Gaining::gains_none))]
    fn read(&mut self, _alloc: Global, key: &Key) -> Result<Option<Record>, Stop> {
        match self.get(key) {
            Some(found) => Ok(Some(found.copy()?)),
            None => Ok(None),
        }
    }
}
