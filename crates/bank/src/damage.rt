// Document 01, "The bank", with CR 3 and CR 6: when a slot is damaged, and when only by stray bytes or flags over 1.
ghost use Rattle.std.specs.Prelude.{◌≡◌};
ghost use Rattle.bank.specs.Damage.{blank, stray, is_damaged, damage_of};

use crate::slot::read_head;

// How a damaged slot is damaged.
#[derive(Clone, Copy)]
pub enum Damage {
    // open, and only by nonzero bytes in unfilled places or after byte 211, or by a flag over 1 (CR 6)
    Stray,
    // otherwise
    Other,
}

// Whether every byte is zero. There is no early end, so that many bytes are tested at once.
pub(crate) fn is_blank(s: &[u8]) -> bool
    ensures { result ≡ blank s.now }
{
    s.iter().fold(true, |zeros, b| zeros & (*b == 0))
}

// Whether a byte is nonzero in an unfilled place or after byte 211, or a no-phase flag is over 1 (CR 6).
#[tactic(auto, unfolding(crate::specs::Damage::stray, crate::specs::Damage::flag_over, crate::specs::Slot::head_in), using(crate::proofs::Stray::unfilled_scan, crate::proofs::Stray::tail_scan))]
pub(crate) fn is_stray(s: &[u8; 256]) -> bool
    ensures { result ≡ stray s.now }
{
    let from = 11 + 6 * usize::from(s[3].min(31));
    let unfilled = is_blank(&s[from..197]);
    let rest = is_blank(&s[212..256]);
    let flags = (s[209] > 1) | (s[210] > 1) | (s[211] > 1);
    !unfilled | !rest | flags
}

// How the 256 bytes of a slot are damaged, if they are.
pub fn damage_of(slot: [u8; 256]) -> Option<Damage>
    ensures { result ≡ damage_of slot }
{
    damage_in(&slot)
}

// The same of a slot where it stands, so that no byte is copied.
#[tactic(auto, using(crate::proofs::States::damage_by_state))]
fn damage_in(s: &[u8; 256]) -> Option<Damage>
    ensures { result ≡ damage_of s.now }
{
    match s[0] {
        0 if is_blank(s) => None,
        1 if read_head(s).is_faulty() => Some(Damage::Other),
        1 => is_stray(s).then_some(Damage::Stray),
        _ => Some(Damage::Other),
    }
}

// Whether a slot is damaged.
#[tactic(auto, using(crate::proofs::States::some_damage))]
pub(crate) fn is_damaged(s: &[u8; 256]) -> bool
    ensures { result ≡ is_damaged s.now }
{
    damage_in(s).is_some()
}
