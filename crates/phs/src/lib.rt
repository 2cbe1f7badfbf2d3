// PHS sample files and their listing: a reader by value takes parts of a file, and text goes into a lent buffer.
#![tactic(auto)]

mod byte;
mod feeding;
mod line;

ghost use Rattle.std.specs.Prelude.{◌≡◌, ◌<◌, ◌≤◌, length};
ghost use Rattle.text.specs.Put.{Leads};
ghost use Rattle.phs.specs.Lines.{line_room};
ghost use Rattle.phs.specs.Stream.{started, last, reader_at, Reading, Finishing};
ghost use Rattle.phs.specs.Inside.{begins_in, Onward};
ghost use Rattle.phs.specs.declared.Stage.TheVariants.{InSamples};

use byte::{reader_at, refuse, take_byte};
use feed::sample_of;
use feeding::{Counts, take_sample};
use line::LINE;
use refusals::Refused;

// Where in the file a reader stands.
#[derive(Clone, Copy)]
pub enum Stage {
    InHeader,
    InSamples,
    // after a refusal: the rest of the file is passed over
    Over,
}

// What is kept between two parts of a file.
#[derive(Clone, Copy)]
pub struct Reader {
    pub stage: Stage,
    // how many bytes of an unfinished header or sample are kept
    pub held: usize,
    pub kept: [u8; 11],
    // the report lines and the samples taken so far
    pub reports: u64,
    pub samples: u64,
}

impl Reader {
    // The report lines and the samples taken so far.
    fn counts(self) -> Counts
        ensures { result ≡ record { reports = self.reports; samples = self.samples } }
    {
        Counts {
            reports: self.reports,
            samples: self.samples,
        }
    }
}

// The next reader, how much of the part is read, and how much text is written.
#[derive(Clone, Copy)]
pub struct Moved {
    pub reader: Reader,
    pub read: usize,
    pub written: usize,
}

// A reader of which no byte is read.
pub fn start() -> Reader
    ensures { result ≡ started }
{
    reader_at(Stage::InHeader, Counts::NONE)
}

// Reads the part for as long as there is room for a line. A whole header clears the bank and opens slot 0; samples are pushed there.
pub fn read_part(r: Reader, bank: &mut [u8], part: &[u8], out: &mut [u8]) -> Moved
    ensures { Reading r bank.old part.now out.old result bank.new out.new }
{
    let mut reader = r;
    let mut i = 0;
    let mut at = 0;
    // how far to go on, in the part and in the text, is what each step answers
    while (i < part.len()) & (LINE <= out.len() - at) {
        let m = advance(reader, bank, &part[i..], &mut out[at..]);
        reader = m.reader;
        i += m.read;
        at += m.written;
    }
    Moved {
        reader,
        read: i,
        written: at,
    }
}

// The last line, at the end of the file: the counts, or refused 14 or 15; nothing after a refusal, or where the buffer has no
// room for a line. Answers how long it is.
pub fn finish(r: Reader, out: &mut [u8]) -> usize
    ensures { Finishing r out.old result out.new }
{
    let Some(line) = out.first_chunk_mut() else {
        return 0;
    };
    put_end(r, line)
}

// The last line.
#[tactic(auto, unfolding(crate::specs::Stream::last))]
fn put_end(r: Reader, line: &mut [u8; LINE]) -> usize
    ensures { Leads line_room (last r) line.old result line.new }
{
    match r.stage {
        Stage::InHeader => line::put_refused(Refused::HeaderCut, line),
        Stage::InSamples => {
            if r.held == 0 {
                line::put_last(r.counts(), line)
            } else {
                line::put_refused(Refused::SampleCut, line)
            }
        }
        Stage::Over => 0,
    }
}

// From the start of the part, where a line has room: the samples that are whole where one begins, and else one byte.
fn advance(r: Reader, bank: &mut [u8], part: &[u8], out: &mut [u8]) -> Moved
    requires { (0 < length part.now) × (line_room ≤ length out.old) }
    ensures onward { Onward part.now
        (record { reader = r; bank = bank.old; out = out.old; read = 0; written = 0 })
        (record { reader = result.reader; bank = bank.new; out = out.new; read = result.read; written = result.written }) }
    ensures read_grows { 0 < result.read }
{
    if begins_sample(r, part.len()) {
        return take_samples(r.counts(), bank, part, out);
    }
    let Some(line) = out.first_chunk_mut() else {
        unreachable!()
    };
    let s = take_byte(r, part[0], bank, line);
    Moved {
        reader: s.reader,
        read: 1,
        written: s.written,
    }
}

// Whole samples from the start of the part, for as long as it has them, a line has room and none is refused: one at least.
fn take_samples(c: Counts, bank: &mut [u8], part: &[u8], out: &mut [u8]) -> Moved
    requires { (6 ≤ length part.now) × (line_room ≤ length out.old) }
    ensures onward { Onward part.now
        (record { reader = reader_at InSamples c.reports c.samples; bank = bank.old; out = out.old; read = 0; written = 0 })
        (record { reader = result.reader; bank = bank.new; out = out.new; read = result.read; written = result.written }) }
    ensures read_grows { 0 < result.read }
{
    let mut counts = c;
    let mut read = 0;
    let mut written = 0;
    while let Some(six) = part[read..].first_chunk() {
        let (_, room) = out.split_at_mut(written);
        let Some(line) = room.first_chunk_mut() else {
            break;
        };
        read += 6;
        match take_sample(counts, bank, sample_of(*six), line) {
            Ok((next, text)) => {
                counts = next;
                written += text;
            }
            Err(refused) => {
                let s = refuse(counts, refused, line);
                return Moved {
                    reader: s.reader,
                    read,
                    written: written + s.written,
                };
            }
        }
    }
    Moved {
        reader: reader_at(Stage::InSamples, counts),
        read,
        written,
    }
}

// Whether the next of these bytes begins a sample that is whole in them.
fn begins_sample(r: Reader, left: usize) -> bool
    ensures { result ≡ begins_in r.stage r left }
{
    matches!(r.stage, Stage::InSamples) & (r.held == 0) & (6 <= left)
}
