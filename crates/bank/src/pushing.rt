// Pushing, of a slot by itself: refused 3, 5, 8.
ghost use Rattle.std.specs.Prelude.{◌≡◌};
ghost use Rattle.bank.specs.Slot.{state_in};
ghost use Rattle.bank.specs.Calls.{Pushing};
ghost use Rattle.bank.specs.Inside.{Lent};

use crate::damage::{is_damaged, is_stray};
use crate::slot::{put_back, read_feed};
use feed::Report;
use model::Sample;
use refusals::Refused;

// A sample goes to the feed of a slot, by the slot's state.
#[tactic(auto, using(crate::proofs::Outcomes::shut_pushes))]
pub(crate) fn push_slot(slot: &mut [u8; 256], s: Sample) -> Result<Option<Report>, Refused>
    ensures { Lent (λ bank n after. Pushing bank n s result after) slot.old slot.new }
{
    if slot[0] == 1 {
        return push_open(slot, s);
    }
    if is_damaged(slot) {
        return Err(Refused::Damaged);
    }
    Err(Refused::NotOpen)
}

// A push, of an open slot. Stray bytes, flags over 1 and a place over 30 are refused here; the feed passes through as one value, which refuses its other
// faults with 3, then 8. Where the sample is taken, what it changes of the feed goes back.
#[tactic(auto, unfolding(crate::specs::Slot::head_in), using(crate::proofs::Through::open_pushes, crate::proofs::Through::left_taken))]
fn push_open(slot: &mut [u8; 256], s: Sample) -> Result<Option<Report>, Refused>
    requires { state_in slot.old ≡ 1 }
    ensures { Lent (λ bank n after. Pushing bank n s result after) slot.old slot.new }
{
    if is_stray(slot) | (slot[10] > 30) {
        return Err(Refused::Damaged);
    }
    let next = read_feed(slot).push(s);
    let answer = next.answer?;
    put_back(slot, s, next.feed);
    Ok(answer)
}
