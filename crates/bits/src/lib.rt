// Numbers of 16 and 32 bits: in bytes, big-endian, and read as signed numbers.
#![tactic(auto)]

ghost use Rattle.std.specs.Prelude.{◌≡◌};
ghost use Rattle.bits.specs.Bits.{be16, be32, signed16, signed32};

// The number in two bytes, big-endian.
pub fn be16(high: u8, low: u8) -> u16
    ensures { result ≡ be16 high low }
{
    u16::from_be_bytes([high, low])
}

// The number in four bytes, big-endian.
pub fn be32(a: u8, b: u8, c: u8, d: u8) -> u32
    ensures { result ≡ be32 a b c d }
{
    u32::from_be_bytes([a, b, c, d])
}

// Sixteen bits read as a signed number.
#[tactic(auto, using(crate::proofs::Reading::reads_16))]
pub fn signed16(word: u16) -> i16
    ensures { result ≡ signed16 word }
{
    word.cast_signed()
}

// Thirty-two bits read as a signed number.
#[tactic(auto, using(crate::proofs::Reading::reads_32))]
pub fn signed32(long: u32) -> i32
    ensures { result ≡ signed32 long }
{
    long.cast_signed()
}
