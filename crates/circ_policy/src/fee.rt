//! What a late return costs.

ghost use Rattle.std.specs.Prelude.{◌≡◌};
ghost use Rattle.circ_policy.specs.Fees.{late_fee};

use crate::media::Media;
use sip_reader::{Amount, Day};

/// The fee for an item that came back late: the media type's rate for each day after the due day,
/// closed days too, but at most its cap; 0 if it came back by the due day.
#[tactic(auto, unfolding(crate::specs::Fees::late_fee))]
pub fn late_fee(due: Day, back: Day, media: &Media) -> Amount
    ensures { result ≡ late_fee due back media.now }
{
    let days_late = back.number().saturating_sub(due.number());
    let fee = media.late.hundredths() * u64::from(days_late);
    Amount::new(fee.min(media.cap.hundredths())).unwrap()
}
