// Document 01, "The bank", with CR 6: where a slot of 256 bytes stands in its bank, and what stands where in it.
ghost use Rattle.std.specs.Prelude.{◌≡◌, ◌+◌, ◌≤◌, ◌<◌, drop, ◌++◌};
ghost use Rattle.bank.specs.Slot.{head_in, head_bytes, phase_in, kept_in, kept_bytes, feed_in, worked_out_in};
ghost use Rattle.bank.specs.Inside.{Finds, Steps, with_part, written};

use bits::{be16, be32};
use feed::{Feed, Head, place_of};
use model::{Angle, Phase, Phases, Sample};
use refusals::Refused;

// Where the slot of that number begins in a bank: refused 1, 2.
fn find(bank: &[u8], slot: u8) -> Result<usize, Refused>
    ensures { Finds bank.now slot result }
{
    if bank.len() != 4096 {
        return Err(Refused::BankLength);
    }
    if slot > 15 {
        return Err(Refused::NoSlot);
    }
    Ok(256 * usize::from(slot))
}

// Runs a step on the 256 bytes of a slot, which are lent to it, and gives its answer: refused 1, 2, and then nothing changes.
pub(crate) fn at_slot<T, F: FnOnce(&mut [u8; 256]) -> Result<T, Refused>>(
    bank: &mut [u8],
    slot: u8,
    step: F,
) -> Result<T, Refused>
    requires { F.IsAlwaysCallable step }
    ensures { Steps F.FnOnce step bank.old slot result bank.new }
{
    let start = find(bank, slot)?;
    let (_, rest) = bank.split_at_mut(start);
    let (bytes, _) = rest.split_first_chunk_mut().unwrap();
    step(bytes)
}

// The numbers of an open slot, bytes 1 to 10.
#[tactic(auto, unfolding(crate::specs::Slot::head_in))]
pub(crate) fn read_head(s: &[u8; 256]) -> Head
    ensures { result ≡ head_in s.now }
{
    Head {
        nominal: s[1],
        rate: s[2],
        held: s[3],
        soc: be32(s[4], s[5], s[6], s[7]),
        index: be16(s[8], s[9]),
        place: s[10],
    }
}

// The phase whose angle is in four bytes from one on, and whose no-phase flag is in another.
fn phase_at(s: &[u8; 256], at: usize, flag: usize) -> Phase
    requires { (at + 4 ≤ 256) × (flag < 256) }
    ensures { result ≡ phase_in s.now at flag }
{
    let parts = be32(s[at], s[at + 1], s[at + 2], s[at + 3]);
    let angle = Angle { parts };
    let none = s[flag] == 1;
    Phase { angle, none }
}

// The kept phases: angles in bytes 197 to 208, flags in bytes 209 to 211 (CR 6).
#[tactic(auto, unfolding(crate::specs::Slot::kept_in))]
fn read_kept(s: &[u8; 256]) -> Phases
    ensures { result ≡ kept_in s.now }
{
    let p = phase_at(s, 197, 209);
    let q = phase_at(s, 201, 210);
    let r = phase_at(s, 205, 211);
    Phases { p, q, r }
}

// The feed that an open slot keeps: its numbers, the thirty-one places in bytes 11 to 196, and the kept phases.
#[tactic(auto, unfolding(crate::specs::Slot::feed_in, crate::specs::Slot::places_in))]
pub(crate) fn read_feed(s: &[u8; 256]) -> Feed
    ensures { result ≡ feed_in s.now }
{
    Feed {
        head: read_head(s),
        places: *s[11..197].as_array().unwrap(),
        kept: read_kept(s),
    }
}

// Bytes 0 to 10 of an open slot.
#[tactic(auto, unfolding(crate::specs::Slot::head_bytes))]
fn head_bytes(h: Head) -> [u8; 11]
    ensures { result ≡ head_bytes h }
{
    let [a, b, c, d] = h.soc.to_be_bytes();
    let [high, low] = h.index.to_be_bytes();
    [1, h.nominal, h.rate, h.held, a, b, c, d, high, low, h.place]
}

// Bytes 197 to 211 of an open slot: the angles, then the flags, 1 where there is no phase (CR 6).
#[tactic(auto, unfolding(crate::specs::Slot::kept_bytes))]
fn kept_bytes(kept: Phases) -> [u8; 15]
    ensures { result ≡ kept_bytes kept }
{
    let [p0, p1, p2, p3] = kept.p.angle.parts.to_be_bytes();
    let [q0, q1, q2, q3] = kept.q.angle.parts.to_be_bytes();
    let [r0, r1, r2, r3] = kept.r.angle.parts.to_be_bytes();
    let p = u8::from(kept.p.none);
    let q = u8::from(kept.q.none);
    let r = u8::from(kept.r.none);
    [p0, p1, p2, p3, q0, q1, q2, q3, r0, r1, r2, r3, p, q, r]
}

// The numbers go into a slot, as bytes 0 to 10 of an open one. The other bytes stay.
pub(crate) fn put_head(s: &mut [u8; 256], h: Head)
    ensures { s.new ≡ head_bytes h ++ drop 11 s.old }
{
    s[..11].copy_from_slice(&head_bytes(h));
}

// The kept phases go into a slot. The other bytes stay.
#[tactic(auto, using(crate::proofs::Written::part_put))]
fn put_kept(s: &mut [u8; 256], kept: Phases)
    ensures { s.new ≡ with_part 197 15 (kept_bytes kept) s.old }
{
    s[197..212].copy_from_slice(&kept_bytes(kept));
}

// What a push changes goes back into the slot: the numbers, the sample in the next place, and the kept phases. The other bytes stay.
#[tactic(auto, unfolding(crate::specs::Slot::head_in), using(crate::proofs::Written::part_put))]
pub(crate) fn put_back(s: &mut [u8; 256], x: Sample, next: Feed)
    requires { (head_in s.old).place ≤ 30 }
    ensures { s.new ≡ written s.old x next }
{
    let from = 11 + 6 * usize::from(s[10]);
    put_head(s, next.head);
    s[from..from + 6].copy_from_slice(&place_of(x));
    put_kept(s, next.kept);
}

// An open slot with its kept phases worked out from the samples that it holds (CR 6), or with those that it keeps where its numbers are faulty; any
// other slot stays as it is.
#[tactic(auto, using(crate::proofs::Angles::worked))]
pub fn worked_out(slot: [u8; 256]) -> [u8; 256]
    ensures { result ≡ worked_out_in slot }
{
    if slot[0] != 1 {
        return slot;
    }
    let mut bytes = slot;
    let feed = read_feed(&slot);
    let next = feed.worked_out();
    put_kept(&mut bytes, next.kept);
    bytes
}
