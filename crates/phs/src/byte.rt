// A byte at a time: those of an unfinished header or sample are kept.
ghost use Rattle.std.specs.Prelude.{◌≡◌, ◌<◌};
ghost use Rattle.phs.specs.Stream.{reader_at, keeping, header_byte, sample_byte, after_byte};
ghost use Rattle.phs.specs.Inside.{Steps, Refuses, Settles};

use crate::feeding::{Counts, begin, take_sample};
use crate::line::{self, LINE};
use crate::{Reader, Stage};
use feed::sample_of;
use refusals::Refused;

// The reader after a byte, and how long the text is.
#[derive(Clone, Copy)]
pub(crate) struct Step {
    pub(crate) reader: Reader,
    pub(crate) written: usize,
}

// One byte more.
pub(crate) fn take_byte(r: Reader, b: u8, bank: &mut [u8], line: &mut [u8; LINE]) -> Step
    ensures { Steps (after_byte r bank.old b) line.old result bank.new line.new }
{
    match r.stage {
        Stage::InHeader => header_byte(r, b, bank, line),
        Stage::InSamples => sample_byte(r, b, bank, line),
        Stage::Over => Step {
            reader: r,
            written: 0,
        },
    }
}

// A byte of the header: the 11th makes it whole.
fn header_byte(r: Reader, b: u8, bank: &mut [u8], line: &mut [u8; LINE]) -> Step
    ensures { Steps (header_byte r bank.old b) line.old result bank.new line.new }
{
    if r.held < 10 {
        return keep(r, b);
    }
    let mut h = r.kept;
    h[10] = b;
    let ended = begin(h, bank, line);
    settle(Counts::NONE, ended, line)
}

// A byte of a sample: the 6th makes it whole.
fn sample_byte(r: Reader, b: u8, bank: &mut [u8], line: &mut [u8; LINE]) -> Step
    ensures { Steps (sample_byte r bank.old b) line.old result bank.new line.new }
{
    if r.held < 5 {
        return keep(r, b);
    }
    let mut kept = r.kept;
    kept[5] = b;
    let s = sample_of(*kept.first_chunk().unwrap());
    let counts = r.counts();
    let ended = take_sample(counts, bank, s, line);
    settle(counts, ended, line)
}

// The byte is kept.
#[tactic(auto, unfolding(crate::specs::Stream::keeping))]
fn keep(r: Reader, b: u8) -> Step
    requires { r.held < 10 }
    ensures { result ≡ record { reader = keeping r b; written = 0 } }
{
    let mut next = r;
    next.kept[r.held] = b;
    next.held += 1;
    Step {
        reader: next,
        written: 0,
    }
}

// After a whole header or sample, from the counts before it.
fn settle(c: Counts, ended: Result<(Counts, usize), Refused>, line: &mut [u8; LINE]) -> Step
    ensures { Settles c ended line.old result line.new }
{
    match ended {
        Ok((next, written)) => Step {
            reader: reader_at(Stage::InSamples, next),
            written,
        },
        Err(refused) => refuse(c, refused, line),
    }
}

// After one that is refused: the line `refused N`, and the listing is over.
pub(crate) fn refuse(c: Counts, refused: Refused, line: &mut [u8; LINE]) -> Step
    ensures { Refuses c refused line.old result line.new }
{
    Step {
        reader: reader_at(Stage::Over, c),
        written: line::put_refused(refused, line),
    }
}

// A reader that keeps no byte.
pub(crate) fn reader_at(stage: Stage, c: Counts) -> Reader
    ensures { result ≡ reader_at stage c.reports c.samples }
{
    Reader {
        stage,
        held: 0,
        kept: [0; 11],
        reports: c.reports,
        samples: c.samples,
    }
}
