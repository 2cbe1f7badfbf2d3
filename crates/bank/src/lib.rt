// Sixteen feeds in 4096 lent bytes: damage, clearing, opening, pushing and closing.
#![tactic(auto)]

mod closing;
mod damage;
mod opening;
mod pushing;
mod slot;

ghost use Rattle.bank.specs.Calls.{Clearing, Opening, Pushing, Closing};

use closing::close_slot;
pub use damage::{Damage, damage_of};
use feed::Report;
use model::Sample;
use opening::open_slot;
use pushing::push_slot;
use refusals::Refused;
use slot::at_slot;
pub use slot::worked_out;

// The bank is zeroed: refused 1, and then nothing changes.
#[tactic(auto, unfolding(feed::specs::Places::zeros), using(crate::proofs::Outcomes::clearings))]
pub fn clear(bank: &mut [u8]) -> Result<(), Refused>
    ensures { Clearing bank.old result bank.new }
{
    if bank.len() != 4096 {
        return Err(Refused::BankLength);
    }
    bank.fill(0);
    Ok(())
}

// A free slot takes a feed as it is opened: refused 1, 2, 3, 4, 6, 7, and then nothing changes.
pub fn open(bank: &mut [u8], slot: u8, nominal: u8, rate: u8, soc: u32) -> Result<(), Refused>
    ensures { Opening bank.old slot nominal rate soc result bank.new }
{
    at_slot(bank, slot, |bytes| open_slot(bytes, nominal, rate, soc))
}

// A sample goes to the feed of a slot: refused 1, 2, 3, 5, 8, and then nothing changes.
pub fn push(bank: &mut [u8], slot: u8, s: Sample) -> Result<Option<Report>, Refused>
    ensures { Pushing bank.old slot s result bank.new }
{
    at_slot(bank, slot, |bytes| push_slot(bytes, s))
}

// An open slot is zeroed: refused 1, 2, 3, 5, and then nothing changes.
pub fn close(bank: &mut [u8], slot: u8) -> Result<(), Refused>
    ensures { Closing bank.old slot result bank.new }
{
    at_slot(bank, slot, close_slot)
}
