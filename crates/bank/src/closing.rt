// Closing, of a slot by itself: refused 3, 5.
ghost use Rattle.bank.specs.Calls.{Closing};
ghost use Rattle.bank.specs.Inside.{Lent};

use crate::damage::is_damaged;
use refusals::Refused;

// An open slot is zeroed.
#[tactic(auto, unfolding(crate::specs::Slot::free_slot, feed::specs::Places::zeros), using(crate::proofs::Outcomes::closings))]
pub(crate) fn close_slot(slot: &mut [u8; 256]) -> Result<(), Refused>
    ensures { Lent (λ bank n after. Closing bank n result after) slot.old slot.new }
{
    if is_damaged(slot) {
        return Err(Refused::Damaged);
    }
    if slot[0] == 0 {
        return Err(Refused::NotOpen);
    }
    slot.fill(0);
    Ok(())
}
