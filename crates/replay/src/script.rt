// A script's records: what each calls for, how long it is, and its numbers, all big-endian.
ghost use Rattle.std.specs.Prelude.{◌≤◌, ◌<◌, length, IfOk, IfSome};

use crate::Stop;

// What a record calls for.
#[derive(Clone, Copy)]
pub(crate) enum Call {
    Clear,
    Open,
    Push,
    Close,
    Mend,
    Set,
    Show,
    Measure,
    Judge,
    Read,
}

// Its first byte says so.
impl TryFrom<u8> for Call {
    type Error = Stop;

    fn try_from(letter: u8) -> Result<Call, Stop> {
        match letter {
            b'C' => Ok(Call::Clear),
            b'O' => Ok(Call::Open),
            b'P' => Ok(Call::Push),
            b'X' => Ok(Call::Close),
            b'M' => Ok(Call::Mend),
            b'S' => Ok(Call::Set),
            b'D' => Ok(Call::Show),
            b'W' => Ok(Call::Measure),
            b'J' => Ok(Call::Judge),
            b'F' => Ok(Call::Read),
            _ => Err(Stop::BadRecord),
        }
    }
}

// A record: what it calls for, and its bytes, the first among them.
#[derive(Clone, Copy)]
pub(crate) struct Record<'a> {
    pub(crate) call: Call,
    pub(crate) bytes: &'a [u8],
}

impl<'a> Record<'a> {
    // The record that a script begins with; none where it is cut short, and an error where its first byte is unknown.
    pub(crate) fn first(script: &'a [u8]) -> Result<Option<Record<'a>>, Stop>
        ensures { IfOk result (λ o. IfSome o (λ r. (0 < length r.bytes.now) × (length r.bytes.now ≤ length script.now))) }
    {
        let Some(letter) = script.first() else {
            return Ok(None);
        };
        let call = Call::try_from(*letter)?;
        let to_the_end = Record {
            call,
            bytes: script,
        };
        let Some(bytes) = script.get(..to_the_end.length()) else {
            return Ok(None);
        };
        Ok(Some(Record { call, bytes }))
    }

    // How many bytes the record has, where more may follow it. A whole run has two for each sample of its three lengths, and a
    // frame's bytes follow their number.
    fn length(self) -> usize
        ensures { 0 < result }
    {
        match self.call {
            Call::Clear | Call::Mend => 3,
            Call::Open | Call::Push => 10,
            Call::Close | Call::Set => 4,
            Call::Show => 2,
            Call::Measure => 9 + 2 * (self.size_at(6) + self.size_at(7) + self.size_at(8)),
            Call::Judge => 27,
            Call::Read => 18 + self.size_at(17),
        }
    }

    // The byte at a place. No record is asked for a byte that it doesn't have: past its end are zeros.
    pub(crate) fn u8_at(self, i: usize) -> u8 {
        self.bytes.get(i).copied().unwrap_or(0)
    }

    // A byte that counts something.
    pub(crate) fn size_at(self, i: usize) -> usize
        ensures { result ≤ 255 }
    {
        usize::from(self.u8_at(i))
    }

    // The bytes from a place on.
    pub(crate) fn bytes_from(self, i: usize) -> &'a [u8] {
        self.bytes.get(i..).unwrap_or(&[])
    }

    // As many bytes as a number has.
    fn bytes_at<const N: usize>(self, i: usize) -> [u8; N] {
        self.bytes_from(i).first_chunk().copied().unwrap_or([0; N])
    }

    pub(crate) fn u16_at(self, i: usize) -> u16 {
        u16::from_be_bytes(self.bytes_at(i))
    }

    pub(crate) fn u32_at(self, i: usize) -> u32 {
        u32::from_be_bytes(self.bytes_at(i))
    }

    pub(crate) fn i16_at(self, i: usize) -> i16 {
        i16::from_be_bytes(self.bytes_at(i))
    }

    pub(crate) fn i32_at(self, i: usize) -> i32 {
        i32::from_be_bytes(self.bytes_at(i))
    }
}
