//! A replay by one thread, as the end of a run.

ghost use Rattle.std.specs.Prelude.{◌≡◌, IfSome, option_copied};
ghost use Rattle.std.proofs.Props.{props};
ghost use Rattle.read_set.specs.Replay.{answer_of};
ghost use Rattle.replay_run.specs.ReplayEnd.{IsReplay};

use crate::replay::Replayed;
use circ_records::{Key, Record, Records};
use read_set::Plan;
use result_report::End;
use sip_answer::Answer;

/// The end of a run by one thread. It borrows the outcome of the replay.
#[derive(Drop)]
pub struct ReplayEnd<'e> {
    pub plan: &'e Plan,
    pub replayed: &'e Replayed,
    ghost replays: { IsReplay plan.now replayed.now } by { Prim.hlevel props },
}

impl<'e> End<'e> for ReplayEnd<'e> {
    ghost use Rattle.read_set.specs.Replay.{answer_of, last};
    ghost use Rattle.replay_run.specs.ReplayEnd.{entered_at};

    ghost planned = { λ e. e.plan.now };

    ghost answered = { λ e line. answer_of e.plan.now line };

    ghost attempted = { λ _ _. 0 };

    ghost entered = { λ e. entered_at e.plan.now.first e.replayed.now.written };

    ghost left = { λ e key. last e.plan.now key };

    fn plan(&self) -> &Plan {
        self.plan
    }

    fn answer(&self, line: u64) -> Option<&'e Answer> {
        let first = self.plan.first();
        if line < first {
            return None;
        }
        match self.replayed.answers.get((line - first) as usize) {
            Some(answer) => answer.as_ref(),
            None => None,
        }
    }

    fn attempt(&self, _line: u64) -> u32 {
        0
    }

    fn keys_of(&self, line: u64, i: usize) -> Option<(&Key, u32)> {
        let first = self.plan.first();
        if line < first {
            return None;
        }
        match self.replayed.written.get((line - first) as usize, i) {
            Some(key) => Some((key, 0)),
            None => None,
        }
    }

    fn final_of(&self, key: &Key) -> Option<&Record> {
        self.replayed.records.get(key.as_ref())
    }

    fn records(&self) -> Option<&'e Records> {
        Some(&self.replayed.records)
    }
}
