// Each kind of record as a call of the library. The numbers given to the readers are the places of a record's arguments.
ghost use Rattle.std.specs.Prelude.{◌≤◌, length};

use crate::script::Record;
use feed::Report;
use frames::{Configured, Frame, Tag};
use model::{Figures, Sample};
use refusals::Refused;
use salvage::MendedSlot;
use verdict::{Device, Reference, Verdict};

// The bytes of the memory that a bank call is lent: the first `len`, or all where there are fewer.
fn lent<'a>(record: Record, memory: &'a mut [u8]) -> &'a mut [u8]
    ensures { length result.now ≤ length memory.old }
{
    let len = usize::from(record.u16_at(1)).min(memory.len());
    &mut memory[..len]
}

// `C`: len.
pub(crate) fn clear(record: Record, memory: &mut [u8]) -> Result<(), Refused> {
    bank::clear(lent(record, memory))
}

// `O`: len, slot, nominal, rate, SOC.
pub(crate) fn open(record: Record, memory: &mut [u8]) -> Result<(), Refused> {
    let slot = record.u8_at(3);
    let nominal = record.u8_at(4);
    let rate = record.u8_at(5);
    let soc = record.u32_at(6);
    bank::open(lent(record, memory), slot, nominal, rate, soc)
}

// `P`: len, slot, a, b, c.
pub(crate) fn push(record: Record, memory: &mut [u8]) -> Result<Option<Report>, Refused> {
    let slot = record.u8_at(3);
    let sample = Sample {
        a: record.i16_at(4),
        b: record.i16_at(6),
        c: record.i16_at(8),
    };
    bank::push(lent(record, memory), slot, sample)
}

// `X`: len, slot.
pub(crate) fn close(record: Record, memory: &mut [u8]) -> Result<(), Refused> {
    bank::close(lent(record, memory), record.u8_at(3))
}

// `M`: len.
pub(crate) fn mend(record: Record, memory: &mut [u8]) -> Result<[MendedSlot; 16], Refused> {
    salvage::mend(lent(record, memory))
}

// `S`: at, value. Nothing where the memory has no such byte.
pub(crate) fn set(record: Record, memory: &mut [u8]) {
    if let Some(byte) = memory.get_mut(usize::from(record.u16_at(1))) {
        *byte = record.u8_at(3);
    }
}

// `D`: slot. None where the memory has no such slot.
pub(crate) fn show<'a>(record: Record, memory: &'a [u8]) -> Option<&'a [u8; 256]> {
    memory.as_chunks().0.get(record.size_at(1))
}

// The samples from a place of the record on, as many as a record can have of a phase: a run is the first of them.
fn samples_at(record: Record, from: usize) -> [i16; 255] {
    let mut samples = [0; 255];
    for (sample, bytes) in samples
        .iter_mut()
        .zip(record.bytes_from(from).as_chunks().0)
    {
        *sample = i16::from_be_bytes(*bytes);
    }
    samples
}

// `W`: nominal, centre, three lengths, then the samples of a, of b and of c.
pub(crate) fn measure(record: Record) -> Result<Figures, Refused> {
    let nominal = record.u8_at(1);
    let centre = record.u32_at(2) as usize;
    let n_a = record.size_at(6);
    let n_b = record.size_at(7);
    let n_c = record.size_at(8);
    let a = samples_at(record, 9);
    let b = samples_at(record, 9 + 2 * n_a);
    let c = samples_at(record, 9 + 2 * (n_a + n_b));
    runs::measure(&a[..n_a], &b[..n_b], &c[..n_c], centre, nominal)
}

// `J`: class, test, m, the device's four numbers, the reference's four.
pub(crate) fn judge(record: Record) -> Result<Option<Verdict>, Refused> {
    let class = record.u8_at(1);
    let test = record.u8_at(2);
    let m = record.i32_at(3);
    let device = Device {
        re: record.i16_at(7),
        im: record.i16_at(9),
        deviation: record.i16_at(11),
        rocof: record.i16_at(13),
    };
    let reference = Reference {
        re: record.i16_at(15),
        im: record.i16_at(17),
        deviation: record.i32_at(19),
        rocof: record.i32_at(23),
    };
    verdict::judge(class, test, m, device, reference)
}

// `F`: nominal, rate, ID, TIME_BASE, SOC, frame, length, then the frame's bytes.
pub(crate) fn read(record: Record) -> Result<Frame, Refused> {
    let configured = Configured {
        nominal: record.u8_at(1),
        rate: record.u8_at(2),
        id: record.u16_at(3),
        time_base: record.u32_at(5),
    };
    let tag = Tag {
        soc: record.u32_at(9),
        frame: record.u32_at(13),
    };
    frames::read_frame(record.bytes_from(18), configured, tag)
}
