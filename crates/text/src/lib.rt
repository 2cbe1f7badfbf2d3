// Lines of text in lent bytes: decimal and hexadecimal numbers, and words.
#![tactic(auto)]

mod number;

ghost use Rattle.std.specs.Prelude.{◌≡◌, ◌+◌, ◌*◌, ◌≤◌, leb, length};
ghost use Rattle.text.specs.Text.{hex_bytes};
ghost use Rattle.text.specs.Put.{Put, Leads, spelt, filled, room_for};

// What stands for a `%` of a line's form.
#[derive(Clone, Copy)]
pub enum Word {
    // a count, in decimal
    Number(u64),
    // a whole number, in decimal
    Whole(i64),
    // 16 hexadecimal digits
    Bits(u64),
    // nothing
    Blank,
}

// Puts the form into the bytes from `at` on, with a word for each `%`, and answers where the text ends. Where fewer bytes are
// left than the form's length and 231 more (11 words of 21), it changes nothing and answers `at`.
#[tactic(auto, using(crate::proofs::Writing::put_leads))]
pub fn put(form: &[u8], words: [Word; 11], out: &mut [u8], at: usize) -> usize
    ensures { Put (room_for form.now) (filled form.now words) out.old at result out.new }
{
    if has_room(out.len(), at, form.len() + 231) {
        at + fill(form, words, &mut out[at..])
    } else {
        at
    }
}

// Puts two hexadecimal digits for each of the bytes, by the same rule.
#[tactic(auto, using(crate::proofs::Writing::put_leads))]
pub fn put_hex(bytes: &[u8], out: &mut [u8], at: usize) -> usize
    ensures { Put (2 * length bytes.now) (hex_bytes bytes.now) out.old at result out.new }
{
    if has_room(out.len(), at, 2 * bytes.len()) {
        at + spell(bytes, &mut out[at..])
    } else {
        at
    }
}

// Whether `room` of `len` bytes are left from `at` on.
fn has_room(len: usize, at: usize, room: usize) -> bool
    ensures { result ≡ leb (at + room) len }
{
    at.checked_add(room).is_some_and(|end| end <= len)
}

// The form with its words, where there is room.
fn fill(form: &[u8], words: [Word; 11], out: &mut [u8]) -> usize
    requires { room_for form.now ≤ length out.old }
    ensures { Leads (room_for form.now) (filled form.now words) out.old result out.new }
{
    let mut words = words.iter();
    let mut end = 0;
    for b in form {
        if *b != b'%' {
            out[end] = *b;
            end += 1;
        } else if let Some(w) = words.next() {
            end += put_word(*w, &mut out[end..]);
        }
    }
    end
}

// Two digits for each byte, where there is room.
#[tactic(auto, using(crate::proofs::Spelling::spell_more), unfolding(crate::specs::Text::hex_bytes))]
fn spell(bytes: &[u8], out: &mut [u8]) -> usize
    requires { 2 * length bytes.now ≤ length out.old }
    ensures { Leads (2 * length bytes.now) (hex_bytes bytes.now) out.old result out.new }
{
    for (i, b) in bytes.iter().enumerate() {
        number::put_digits(u64::from(*b), 16, &mut out[2 * i..2 * i + 2]);
    }
    2 * bytes.len()
}

// One word, where there is room.
fn put_word(w: Word, out: &mut [u8]) -> usize
    requires { 21 ≤ length out.old }
    ensures { Leads 21 (spelt w) out.old result out.new }
{
    match w {
        Word::Number(n) => number::put_number(n, out),
        Word::Whole(z) => number::put_whole(z, out),
        Word::Bits(n) => number::put_bits(n, out),
        Word::Blank => 0,
    }
}
