// What the calls answer, and the lines that say it.
use crate::lines::Text;
use feed::Report;
use frames::Frame;
use model::Figures;
use salvage::MendedSlot;
use std::fmt;
use std::fmt::Write;
use std::num::f64_to_bits_with_nan;
use text::Word;
use verdict::Verdict;

// The answer of a record's call that is not refused.
#[derive(Drop)]
pub(crate) enum Answer<'a> {
    // no line
    Quiet,
    // `done`
    Done,
    // `taken`, or `report ..`: SOC, frame, re, im, d1, d2, mark, and the four floats' bits
    Taken(Option<Report>),
    // `mended`, and ` sound/N`, ` trimmed/N` or ` closed/N` for each slot
    Mended([MendedSlot; 16]),
    // `bytes ` and two hexadecimal digits for each byte
    Bytes(&'a [u8; 256]),
    // `figures ..`, as a report without SOC and frame
    Measured(Figures),
    // `verdict T F R`, 1 within and 0 not, or `left out`
    Judged(Option<Verdict>),
    // `reading re im freq rocof quality`
    Read(Frame),
}

impl Answer<'_> {
    // Puts its line, for which there is room.
    pub(crate) fn put(self, out: &mut Text) -> fmt::Result {
        match self {
            Answer::Quiet => {}
            Answer::Done => out.put(b"done\n", &[]),
            Answer::Taken(None) => out.put(b"taken\n", &[]),
            Answer::Taken(Some(r)) => out.put(
                b"report % % % % % % % % % % %\n",
                &[
                    Word::Number(u64::from(r.soc)),
                    Word::Number(u64::from(r.frame)),
                    Word::Whole(r.re),
                    Word::Whole(r.im),
                    whole(r.d1),
                    whole(r.d2),
                    Word::Number(u64::from(r.mark)),
                    bits(r.re_peak),
                    bits(r.im_peak),
                    bits(r.deviation),
                    bits(r.rocof),
                ],
            ),
            Answer::Mended(slots) => {
                out.put(b"mended", &[]);
                for slot in slots {
                    write!(out, " {}", slot.fate)?;
                    out.put(b"/%", &[Word::Number(u64::from(slot.differing))]);
                }
                out.put(b"\n", &[]);
            }
            Answer::Bytes(bytes) => {
                out.put(b"bytes ", &[]);
                out.put_hex(bytes);
                out.put(b"\n", &[]);
            }
            Answer::Measured(g) => out.put(
                b"figures % % % % % % % % %\n",
                &[
                    Word::Whole(g.re),
                    Word::Whole(g.im),
                    whole(g.d1),
                    whole(g.d2),
                    Word::Number(u64::from(g.mark)),
                    bits(g.re_peak),
                    bits(g.im_peak),
                    bits(g.deviation),
                    bits(g.rocof),
                ],
            ),
            Answer::Judged(None) => out.put(b"left out\n", &[]),
            Answer::Judged(Some(v)) => out.put(
                b"verdict % % %\n",
                &[
                    Word::Number(u64::from(v.tve)),
                    Word::Number(u64::from(v.fe)),
                    Word::Number(u64::from(v.rfe)),
                ],
            ),
            Answer::Read(r) => {
                let d = r.device;
                out.put(
                    b"reading % % % % %\n",
                    &[
                        whole(i32::from(d.re)),
                        whole(i32::from(d.im)),
                        whole(i32::from(d.deviation)),
                        whole(i32::from(d.rocof)),
                        Word::Number(u64::from(r.quality)),
                    ],
                );
            }
        }
        Ok(())
    }
}

// A whole number of at most 32 bits.
fn whole(z: i32) -> Word {
    Word::Whole(i64::from(z))
}

// The bits of a float. A line's floats are quotients of whole numbers, so none is a NaN.
fn bits(x: f64) -> Word {
    Word::Bits(f64_to_bits_with_nan(x))
}
