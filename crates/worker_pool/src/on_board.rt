//! Looking on the board for the records that a line needs.

use crate::calls::Left;
use crate::shared::SharedBoard;
use board_lines::{Reply, copied, record_seen};
use circ_records::Key;
use read_set::{Note, NotedRecord, PlanName, RecordReader};
use std::alloc::{AllocError, Global};
use std::sync::Wait;

/// Where a worker looks for its line's records: the board, with one hold of the lock for each look.
#[derive(Drop)]
pub struct OnBoard<'a, 'p, 't, J: PlanName + 'static, R: Wait> {
    pub rt: &'a R,
    pub shared: &'a SharedBoard<'p, 't, J>,
    pub worker: u32,
    /// The fault that ended the looking, if it was a fault and not the end of the attempt.
    pub left: Option<Left>,
}

impl<'t, J: PlanName + 'static, R: Wait> OnBoard<'_, '_, 't, J, R> {
    /// The board's reply to one look, by one hold of the lock.
    fn reply(&self, key: &Key) -> Result<Reply<'t, J>, Left> {
        self.shared.hold(self.rt).look(self.worker, key)
    }
}

impl<J: PlanName + 'static, R: Wait> RecordReader for OnBoard<'_, '_, '_, J, R> {
    fn look(&mut self, _alloc: Global, key: &Key) -> Result<Option<Note>, AllocError> {
        match self.reply(key) {
            Ok(Reply::Seen { name, place }) => {
                let found = copied(record_seen(self.shared.plan(), key, place))?;
                Ok(Some(Note {
                    key: key.clone()?,
                    name,
                    found: NotedRecord::new(found),
                }))
            }
            Ok(_) => Ok(None),
            Err(left) => {
                self.left = Some(left);
                Ok(None)
            }
        }
    }
}
