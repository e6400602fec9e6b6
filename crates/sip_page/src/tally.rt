//! What is counted, by name.

use std::alloc::{AllocError, Global};
use std::collections::BTreeMap;

/// How often each name came.
pub type Tally = BTreeMap<Vec<u8>, u64>;

/// Adds `more` to the count of a name.
pub fn count(alloc: Global, tally: &mut Tally, name: &[u8], more: u64) -> Result<(), AllocError> {
    if let Some(number) = tally.get_mut(name) {
        *number = number.saturating_add(more);
        return Ok(());
    }
    tally.insert(Vec::from_slice(alloc, name)?, more)?;
    Ok(())
}
