// Document 02, CR 3 with CR 6: the salvage of a bank image in lent bytes, slot by slot.
#![tactic(auto)]

mod slot;

ghost use Rattle.std.specs.Prelude.{◌≡◌, Some};
ghost use Rattle.salvage.specs.Slots.{word_of};
ghost use Rattle.salvage.specs.Image.{mended_image, told_of, Mending};

use refusals::Refused;
use slot::mend_slot;
use std::fmt;

// What becomes of a slot.
#[derive(Clone, Copy)]
pub enum Fate {
    // it stays as it is
    Sound,
    // its unfilled places and the bytes after byte 211 are set to zero, and its angles are worked out (CR 6)
    Trimmed,
    // all of it is set to zero
    Closed,
}

// `sound`, `trimmed` or `closed`
impl fmt::Display for Fate {
    ghost output = { λ f. Some (word_of f) };

    fn fmt<W: fmt::Write>(&self, f: &mut fmt::Formatter<W>) -> fmt::Result {
        f.write_str(match self {
            Fate::Sound => "sound",
            Fate::Trimmed => "trimmed",
            Fate::Closed => "closed",
        })
    }
}

// What is said of a slot.
#[derive(Clone, Copy)]
pub struct MendedSlot {
    pub fate: Fate,
    // how many of its 256 bytes differ from before
    pub differing: u16,
}

// An image of the bank is mended slot by slot, and what is said of each is answered in their order: refused 1, and then nothing changes.
#[tactic(auto, unfolding(crate::specs::Image::salvaged))]
pub fn mend(image: &mut [u8]) -> Result<[MendedSlot; 16], Refused>
    ensures { Mending image.old result image.new }
{
    let Some(image) = image.as_mut_array() else {
        return Err(Refused::BankLength);
    };
    Ok(mend_slots(image))
}

// The sixteen slots of an image, one after another.
fn mend_slots(image: &mut [u8; 4096]) -> [MendedSlot; 16]
    ensures { (result ≡ told_of image.old) × (image.new ≡ mended_image image.old) }
{
    let mut slots = [MendedSlot {
        fate: Fate::Sound,
        differing: 0,
    }; 16];
    for k in 0..16 {
        let start = 256 * k;
        let end = start + 256;
        let slot = &mut image[start..end];
        let (after, told) = mend_slot(*slot.as_array().unwrap());
        slot.copy_from_slice(&after);
        slots[k] = told;
    }
    slots
}
