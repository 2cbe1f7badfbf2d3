// Document 02, CR 4: the reading of one C37.118.2 data frame that a device sends.
#![tactic(auto)]

mod bench;
mod checksum;
mod fields;
mod tags;

ghost use Rattle.std.specs.Prelude.{◌≡◌};
ghost use Rattle.refusals.specs.Refusals.{unless_refused};
ghost use Rattle.frames.specs.Inside.{bytes_refusals};
ghost use Rattle.frames.specs.Reading.{refused, said, figures_in, Reading};

pub use bench::{Configured, Tag};
use checksum::checksum_of;
use fields::{device_in, long_at, low_24, top_bits_set, word_at};
use refusals::Refused;
use sampling::Nominal;
use tags::agrees;
use verdict::Device;

// What a frame says: the four figures as they are and, aside, the time quality.
#[derive(Clone, Copy)]
pub struct Frame {
    pub device: Device,
    pub quality: u8,
}

// Reads a frame: refused 6, 7 (rate 0 too), 36, 18, 19, 20, 21, 22, 23, 24.
#[tactic(auto, unfolding(crate::specs::Reading::reading))]
pub fn read_frame(frame: &[u8], configured: Configured, tag: Tag) -> Result<Frame, Refused>
    ensures { Reading frame.now configured tag result }
{
    Nominal::try_from(configured.nominal)?;
    if !sampling::served_rate(configured.nominal, configured.rate) {
        return Err(Refused::Rate);
    }
    if !matches!(configured.time_base, 1..=16777215) {
        return Err(Refused::TimeBase);
    }
    let bytes = frame.as_array().ok_or(Refused::FrameLength)?;
    read_bytes(bytes, configured, tag)
}

// Reads the 26 bytes of a frame: refused 19, 20, 21, 22, 23, 24.
fn read_bytes(frame: &[u8; 26], configured: Configured, tag: Tag) -> Result<Frame, Refused>
    ensures { said result ≡ unless_refused (bytes_refusals frame.now configured tag) refused (figures_in frame.now) }
{
    if word_at(frame, 0) != 0xAA01 {
        return Err(Refused::Sync);
    }
    if word_at(frame, 2) != 26 {
        return Err(Refused::SizeField);
    }
    if word_at(frame, 24) != checksum_of(&frame[..24]) {
        return Err(Refused::Checksum);
    }
    if word_at(frame, 4) != configured.id {
        return Err(Refused::IdCode);
    }
    if top_bits_set(word_at(frame, 14)) {
        return Err(Refused::Stat);
    }
    let soc = long_at(frame, 6);
    let fracsec = low_24(long_at(frame, 10));
    if !agrees(soc, fracsec, configured, tag) {
        return Err(Refused::Tag);
    }
    Ok(Frame {
        device: device_in(frame),
        quality: frame[10],
    })
}
