// Document 02, CR 4: the CRC-CCITT, a byte at a time.
ghost use Rattle.std.specs.Prelude.{◌≡◌};
ghost use Rattle.frames.specs.Checksum.{after_byte, checksum};

// The remainder after one more byte: eight steps of the division at once.
#[tactic(auto, using(crate::proofs::Division::shifted))]
fn after_byte(remainder: u16, byte: u8) -> u16
    ensures { result ≡ after_byte remainder byte }
{
    let leaves = (remainder >> 8) ^ u16::from(byte);
    let taken = leaves ^ (leaves >> 4);
    (remainder << 8) ^ (taken << 12) ^ (taken << 5) ^ taken
}

// The checksum of these bytes: initial FFFF, no final change.
#[tactic(auto, unfolding(crate::specs::Checksum::checksum))]
pub(crate) fn checksum_of(bytes: &[u8]) -> u16
    ensures { result ≡ checksum bytes.now }
{
    bytes
        .iter()
        .fold(0xFFFF, |remainder, byte| after_byte(remainder, *byte))
}
