// Opening, of a slot by itself: refused 3, 4, 6, 7.
ghost use Rattle.std.specs.Prelude.{◌≡◌};
ghost use Rattle.bank.specs.Calls.{Opening};
ghost use Rattle.bank.specs.Inside.{Lent};

use crate::damage::is_damaged;
use crate::slot::put_head;
use feed::Feed;
use refusals::Refused;
use sampling::Nominal;

// A free slot takes a feed as it is opened. It is all zero, so the numbers of the feed are all that has to be put into it.
#[tactic(auto, using(crate::proofs::Outcomes::openings, crate::proofs::Free::opened_slot))]
pub(crate) fn open_slot(
    slot: &mut [u8; 256],
    nominal: u8,
    rate: u8,
    soc: u32,
) -> Result<(), Refused>
    ensures { Lent (λ bank n after. Opening bank n nominal rate soc result after) slot.old slot.new }
{
    if is_damaged(slot) {
        return Err(Refused::Damaged);
    }
    if slot[0] == 1 {
        return Err(Refused::AlreadyOpen);
    }
    Nominal::try_from(nominal)?;
    if !(sampling::served_rate(nominal, rate) | (rate == 0)) {
        return Err(Refused::Rate);
    }
    put_head(slot, Feed::open(nominal, rate, soc).head);
    Ok(())
}
