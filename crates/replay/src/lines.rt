// Lines are gathered, and written many at a time.
ghost use Rattle.std.specs.Prelude.{◌≡◌, ◌+◌, ◌≤◌, length, OnOk};

use std::{fmt, io};
use text::Word;

// Room for any line, the 1024 of the contracts.
const LINE: usize = 1024;

// The lines that are not written yet.
#[derive(Drop)]
pub(crate) struct Text {
    bytes: [u8; 65536],
    pub(crate) len: usize,
    ghost within: { len ≤ 65536 },
}

impl Text {
    pub(crate) fn new() -> Text {
        Text {
            bytes: [0; 65536],
            len: 0,
        }
    }

    // Writes the lines, after which there are none.
    pub(crate) fn flush(&mut self, rt: &HostRuntime) -> io::Result<()>
        ensures { OnOk result (self.new.len ≡ 0) }
    {
        rt.stdout().write_all(&self.bytes[..self.len])?;
        self.len = 0;
        Ok(())
    }

    // Makes room for a line: writes those before it where there is too little.
    pub(crate) fn make_room(&mut self, rt: &HostRuntime) -> io::Result<()>
        ensures { OnOk result (self.new.len + 1024 ≤ 65536) }
    {
        if self.bytes.len() - self.len < LINE {
            self.flush(rt)?;
        }
        Ok(())
    }

    // Puts a form with a word for each `%`, up to eleven, where there is room.
    #[tactic(auto, using(text::proofs::Writing::put_within))]
    pub(crate) fn put(&mut self, form: &[u8], words: &[Word]) {
        let mut all = [Word::Blank; 11];
        for (word, given) in all.iter_mut().zip(words) {
            *word = *given;
        }
        self.len = text::put(form, all, &mut self.bytes, self.len);
    }

    // Puts two hexadecimal digits for each byte, where there is room.
    #[tactic(auto, using(text::proofs::Writing::put_within))]
    pub(crate) fn put_hex(&mut self, bytes: &[u8]) {
        self.len = text::put_hex(bytes, &mut self.bytes, self.len);
    }
}

// Text that there is no room for is not put.
impl fmt::Write for Text {
    fn write_str(&mut self, s: &str) -> fmt::Result {
        let Some(room) = self.bytes[self.len..].get_mut(..s.len()) else {
            return Err(fmt::Error);
        };
        room.copy_from_slice(s.as_bytes());
        self.len += s.len();
        Ok(())
    }
}
