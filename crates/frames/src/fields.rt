// Document 02, CR 4: the fields of a frame's 26 bytes, big-endian.
ghost use Rattle.std.specs.Prelude.{◌≡◌, ◌+◌, ◌<◌};
ghost use Rattle.frames.specs.Fields.{word_at, long_at, low24, top_bits_set, figure_at, device_in};

use bits::{be16, be32, signed16};
use verdict::Device;

// The 16 bits at this byte and the next.
pub(crate) fn word_at(f: &[u8; 26], at: usize) -> u16
    requires { at + 1 < 26 }
    ensures { result ≡ word_at f.now at }
{
    be16(f[at], f[at + 1])
}

// The 32 bits at this byte and the next three.
pub(crate) fn long_at(f: &[u8; 26], at: usize) -> u32
    requires { at + 3 < 26 }
    ensures { result ≡ long_at f.now at }
{
    be32(f[at], f[at + 1], f[at + 2], f[at + 3])
}

// The low 24 bits of 32.
pub(crate) fn low_24(n: u32) -> u32
    ensures { result ≡ low24 n }
{
    n % 16777216
}

// STAT's two top bits are not both zero.
pub(crate) fn top_bits_set(stat: u16) -> bool
    ensures { result ≡ top_bits_set stat }
{
    stat / 16384 != 0
}

// A figure, signed.
#[tactic(auto, unfolding(crate::specs::Fields::figure_at))]
fn figure_at(f: &[u8; 26], at: usize) -> i16
    requires { at + 1 < 26 }
    ensures { result ≡ figure_at f.now at }
{
    signed16(word_at(f, at))
}

// Phasor re and im, FREQ and DFREQ, as they are.
#[tactic(auto, unfolding(crate::specs::Fields::device_in))]
pub(crate) fn device_in(f: &[u8; 26]) -> Device
    ensures { result ≡ device_in f.now }
{
    Device {
        re: figure_at(f, 16),
        im: figure_at(f, 18),
        deviation: figure_at(f, 20),
        rocof: figure_at(f, 22),
    }
}
