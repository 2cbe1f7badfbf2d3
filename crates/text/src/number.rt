// Numbers as digits, each put at the start of bytes that have room for it.
ghost use Rattle.std.specs.Prelude.{◌≡◌, ◌≤◌, ◌<◌, length};
ghost use Rattle.text.specs.Text.{digits, decimal, signed, hex16, glyph as text_glyph};
ghost use Rattle.text.specs.Put.{Leads};

// A digit: `0` to `9`, then `a` to `f`.
fn glyph(d: u64) -> u8
    requires { d < 16 }
    ensures { result ≡ text_glyph d }
{
    if d < 10 {
        b'0' + d as u8
    } else {
        b'a' - 10 + d as u8
    }
}

// Fills the bytes with the last digits of n.
#[tactic(auto, using(crate::proofs::Digits::digit_stored), unfolding(crate::specs::Text::digits))]
pub(crate) fn put_digits(n: u64, base: u64, out: &mut [u8])
    requires { (0 < base) × (base ≤ 16) }
    ensures { out.new ≡ digits base (length out.old) n }
{
    let mut rest = n;
    for i in (0..out.len()).rev() {
        out[i] = glyph(rest % base);
        rest /= base;
    }
}

// How many decimal digits n has.
#[tactic(auto, using(crate::proofs::Digits::decimal_places))]
fn places(n: u64) -> usize
    ensures { (decimal n ≡ digits 10 result n) × (result ≤ 20) }
{
    n.checked_ilog10().unwrap_or(0) as usize + 1
}

// A count, in decimal.
pub(crate) fn put_number(n: u64, out: &mut [u8]) -> usize
    requires { 20 ≤ length out.old }
    ensures { Leads 20 (decimal n) out.old result out.new }
{
    let k = places(n);
    put_digits(n, 10, &mut out[..k]);
    k
}

// A whole number, in decimal.
#[tactic(auto, using(crate::proofs::Signs::signed_above))]
pub(crate) fn put_whole(z: i64, out: &mut [u8]) -> usize
    requires { 21 ≤ length out.old }
    ensures { Leads 21 (signed z) out.old result out.new }
{
    if z < 0 {
        out[0] = b'-';
        1 + put_number(z.unsigned_abs(), &mut out[1..])
    } else {
        put_number(z.unsigned_abs(), out)
    }
}

// 16 hexadecimal digits.
#[tactic(auto, unfolding(crate::specs::Text::hex16))]
pub(crate) fn put_bits(n: u64, out: &mut [u8]) -> usize
    requires { 16 ≤ length out.old }
    ensures { Leads 16 (hex16 n) out.old result out.new }
{
    put_digits(n, 16, &mut out[..16]);
    16
}
