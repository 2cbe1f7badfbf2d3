// Document 02, CR 4: when a frame's tag agrees with the one that the bench expects.
ghost use Rattle.std.specs.Prelude.{◌≡◌};
ghost use Rattle.frames.specs.Tags.{agrees};

use crate::bench::{Configured, Tag};

// SOC is equal, and FRACSEC × rate differs from frame × TIME_BASE by less than rate.
#[tactic(auto, using(crate::proofs::Apart::apart_is), unfolding(crate::specs::Tags::agrees))]
pub(crate) fn agrees(soc: u32, fracsec: u32, configured: Configured, tag: Tag) -> bool
    ensures { result ≡ agrees soc fracsec configured tag }
{
    let rate = u64::from(configured.rate);
    let parts = u64::from(fracsec) * rate;
    let due = u64::from(tag.frame) * u64::from(configured.time_base);
    soc == tag.soc && parts.abs_diff(due) < rate
}
