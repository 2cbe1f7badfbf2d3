// Document 01, "Refusal numbers", with CR 2 and CR 4: what a call is refused for, and its number. That refusals are data, and their order a list,
// stands in specs/.
#![tactic(auto)]

ghost use Rattle.std.specs.Prelude.{◌≡◌, Some};
ghost use Rattle.refusals.specs.Refusals.{number_of, refusal_text};

use std::error::Error;
use std::fmt;

// What a call is refused for, with the number that the documents give it.
#[derive(Clone, Copy, Debug, PartialEq, Eq)]
pub enum Refused {
    // bank not 4096 bytes
    BankLength = 1,
    // slot over 15
    NoSlot = 2,
    // slot damaged
    Damaged = 3,
    // open of an open slot
    AlreadyOpen = 4,
    // push or close on a free slot
    NotOpen = 5,
    // nominal not 50 or 60
    Nominal = 6,
    // rate not served
    Rate = 7,
    // SOC 4294967295 and the sample is the last index of the second
    EndOfTime = 8,
    // reference re and im both 0
    NoReference = 9,
    // class over 1
    Class = 10,
    // test over 1
    Test = 11,
    // mark not PHS
    Mark = 12,
    // version other than 1 and 2 (CR 2)
    Version = 13,
    // fewer than 11 header bytes
    HeaderCut = 14,
    // file ends inside a sample
    SampleCut = 15,
    // the three runs differ in length
    RunsDiffer = 16,
    // centre has fewer than 15 samples before or after it
    OffCentre = 17,
    // a frame's length (CR 4, as those below)
    FrameLength = 18,
    // its sync
    Sync = 19,
    // its size field
    SizeField = 20,
    // its checksum
    Checksum = 21,
    // its ID
    IdCode = 22,
    // STAT's two top bits not zero
    Stat = 23,
    // its tag
    Tag = 24,
    // TIME_BASE 0 or over 16777215
    TimeBase = 36,
}

impl Refused {
    // The number that the document gives it, which is what a program prints.
    pub fn number(self) -> u8
        ensures { result ≡ number_of self }
    {
        self as u8
    }
}

// `refused N`
impl fmt::Display for Refused {
    ghost output = { λ r. Some (refusal_text r) };

    fn fmt<W: fmt::Write>(&self, f: &mut fmt::Formatter<W>) -> fmt::Result {
        write!(f, "refused {}", self.number())
    }
}

impl Error for Refused {}
