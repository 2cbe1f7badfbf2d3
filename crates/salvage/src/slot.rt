// Document 02, CR 3 with CR 6, of one slot: what becomes of it, and how many of its bytes differ from before.
ghost use Rattle.std.specs.Prelude.{◌≡◌, ◌≤◌, get_or};
ghost use Rattle.bank.specs.Damage.{damage_of};
ghost use Rattle.salvage.specs.Slots.{fate_by, trimmed, left_by, mended_slot, differing, told};

use crate::{Fate, MendedSlot};
use bank::{Damage, damage_of, worked_out};

// What becomes of a slot, by its damage and by whether it is altered.
fn fate_by(damage: Option<Damage>, altered: bool) -> Fate
    ensures { result ≡ fate_by damage altered }
{
    match damage {
        None => { if altered { Fate::Trimmed } else { Fate::Sound } }
        Some(Damage::Stray) => Fate::Trimmed,
        Some(Damage::Other) => Fate::Closed,
    }
}

// An open slot with zeros after its numbers and its filled places.
fn trim(slot: [u8; 256]) -> [u8; 256]
    requires { get_or slot 3 0 ≤ 31 }
    ensures { result ≡ trimmed slot }
{
    let filled = 11 + 6 * usize::from(slot[3]);
    let mut bytes = slot;
    bytes[filled..].fill(0);
    bytes
}

// What a slot so damaged is left with: where it is not closed, its angles are worked out.
#[tactic(auto, unfolding(crate::specs::Slots::left_by, bank::specs::Slot::free_slot, feed::specs::Places::zeros), using(crate::proofs::Fates::held_if_stray))]
fn left_by(damage: Option<Damage>, slot: [u8; 256]) -> [u8; 256]
    requires { damage ≡ damage_of slot }
    ensures { result ≡ left_by damage slot }
{
    match damage {
        None => worked_out(slot),
        Some(Damage::Stray) => worked_out(trim(slot)),
        Some(Damage::Other) => [0; 256],
    }
}

// How many of the bytes differ. There is no early end, so that many bytes are compared at once.
fn count(before: &[u8; 256], after: &[u8; 256]) -> u16
    ensures { result ≡ differing before.now after.now }
{
    // at most 256
    before
        .iter()
        .zip(after)
        .fold(0, |n: u16, (b, a)| n.wrapping_add(u16::from(b != a)))
}

// A slot as salvage leaves it, and what is said of it.
#[tactic(auto, unfolding(crate::specs::Slots::mended_slot, crate::specs::Slots::told))]
pub(crate) fn mend_slot(slot: [u8; 256]) -> ([u8; 256], MendedSlot)
    ensures { (result.0 ≡ mended_slot slot) × (result.1 ≡ told slot) }
{
    let damage = damage_of(slot);
    let after = left_by(damage, slot);
    let differing = count(&slot, &after);
    let fate = fate_by(damage, differing != 0);
    (after, MendedSlot { fate, differing })
}
