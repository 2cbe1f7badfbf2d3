// Document 01, "The report": the figures at a centre, joined from the phases at it and beside it.
ghost use Rattle.std.specs.Prelude.{◌≡◌, ◌+◌, ◌^◌, ◌≤◌, pos, ◌*ℤ◌, unsigned_abs};
ghost use Rattle.model.specs.Report.{difference, second_difference, over, differences, joined, three_phase, phase_at, Measuring, NewestPhase, ThreePhases, MeasuringKept};
ghost use Rattle.model.specs.Filter.{windowed, lent_samples};
ghost use Rattle.model.specs.Bounds.{Small};

use crate::angle::{Angle, Phase, phase_of};
use crate::filter::{Phasor, positive_sequence};
use bits::signed32;
use sampling::Nominal;

// A report without its tag: whole numbers, and four floats.
#[derive(Clone, Copy)]
pub struct Figures {
    pub re: i64,
    pub im: i64,
    pub d1: i32,
    pub d2: i32,
    // the no-phase mark, 1 or 0: a number, since a report prints it
    pub mark: u8,
    // re and im in peak counts
    pub re_peak: f64,
    pub im_peak: f64,
    // the frequency deviation in Hz
    pub deviation: f64,
    // the rate of change of frequency in Hz/s
    pub rocof: f64,
}

// The phases at three centres in turn, the oldest first: p, q and r of a report.
#[derive(Clone, Copy)]
pub struct Phases {
    pub p: Phase,
    pub q: Phase,
    pub r: Phase,
}

// The limit below which re and im have no phase, and the number that each is divided by to give peak counts.
#[derive(Clone, Copy)]
struct Scale {
    limit: u32,
    divisor: u32,
}

// No phase is |re| and |im| both below 22118400, four peak counts (CR 5); peak counts are re and im divided by 5529600.
const THREE_PHASE: Scale = Scale {
    limit: 22118400,
    divisor: 5529600,
};

// d1 and d2, and the no-phase mark.
#[derive(Clone, Copy)]
struct Differences {
    d1: i32,
    d2: i32,
    mark: u8,
}

// r - p, modulo 2^32.
fn difference(p: Angle, r: Angle) -> u32
    ensures { result ≡ difference p r }
{
    r.parts.wrapping_sub(p.parts)
}

// r - 2q + p, modulo 2^32, as (r - q) - (q - p).
#[tactic(auto, unfolding(crate::specs::Report::second_difference))]
fn second_difference(p: Angle, q: Angle, r: Angle) -> u32
    ensures { result ≡ second_difference p q r }
{
    difference(q, r).wrapping_sub(difference(p, q))
}

// d1 and d2 of the phases at i-1, i and i+1; both 0 and the mark 1 where one of them is none.
#[tactic(auto, using(crate::proofs::Signed::signed), unfolding(crate::specs::Report::differences))]
fn differences_of(k: Phases) -> Differences
    ensures { result ≡ differences k.p k.q k.r }
{
    if k.p.none | k.q.none | k.r.none {
        return Differences {
            d1: 0,
            d2: 0,
            mark: 1,
        };
    }
    Differences {
        d1: signed32(difference(k.p.angle, k.r.angle)),
        d2: signed32(second_difference(k.p.angle, k.q.angle, k.r.angle)),
        mark: 0,
    }
}

// A whole number made a float, which loses nothing, and divided once.
#[tactic(auto, using(crate::proofs::Signed::signed), unfolding(crate::specs::Report::over))]
fn divided(n: i64, by: u64) -> f64
    requires { (unsigned_abs n ≤ 2 ^ 53) × (by ≤ 2 ^ 53) }
    ensures { result ≡ over n by }
{
    n as f64 / by as f64
}

// A number of 2^32nds of a turn, times a whole number, as turns: the product is a whole number, divided once.
fn turns(d: i32, by: u32) -> f64
    requires { by ≤ 810000 }
    ensures { result ≡ over (d *ℤ pos by) 4294967296 }
{
    divided(i64::from(d) * i64::from(by), 4294967296)
}

// The figures of a positive sequence and its differences: the frequency deviation is d1 times half the sampling, and ROCOF d2 times its square.
#[tactic(auto, using(crate::proofs::Signed::signed), unfolding(crate::specs::Report::joined))]
fn join(p: Phasor, d: Differences, nominal: Nominal) -> Figures
    requires { Small p }
    ensures { result ≡ joined three_phase nominal p d }
{
    let divisor = u64::from(THREE_PHASE.divisor);
    let sampling = nominal.sampling();
    Figures {
        re: p.re,
        im: p.im,
        d1: d.d1,
        d2: d.d2,
        mark: d.mark,
        re_peak: divided(p.re, divisor),
        im_peak: divided(p.im, divisor),
        deviation: turns(d.d1, sampling / 2),
        rocof: turns(d.d2, sampling * sampling),
    }
}

// The phase at the centre of the 29 samples of a window from a place on; the window's first sample has this index.
#[tactic(auto, unfolding(crate::specs::Report::phase_at))]
fn phase_from(window: &[i16; 93], index: usize, from: usize) -> Phase
    requires { from ≤ 2 }
    ensures { result ≡ phase_at three_phase (windowed (lent_samples 31 window.now) index) (index + from + 14) }
{
    phase_of(positive_sequence(window, index, from), THREE_PHASE.limit)
}

// The figures at the centre of 31 lent samples, of which the first has this index; a, b and c of each stand in turn.
#[tactic(auto, unfolding(crate::specs::Report::figures_at, crate::specs::Report::phase_at))]
pub fn measure(window: &[i16; 93], index: usize, nominal: Nominal) -> Figures
    ensures { Measuring (lent_samples 31 window.now) index nominal result }
{
    let centre = positive_sequence(window, index, 1);
    let phases = Phases {
        p: phase_from(window, index, 0),
        q: phase_of(centre, THREE_PHASE.limit),
        r: phase_from(window, index, 2),
    };
    join(centre, differences_of(phases), nominal)
}

// The phase at the newest centre of 31 lent samples, which stands 14 behind the newest (CR 6). The first sample has this index.
pub fn newest_phase(window: &[i16; 93], index: usize) -> Phase
    ensures { NewestPhase (lent_samples 31 window.now) index result }
{
    phase_from(window, index, 2)
}

// The phases at the three centres of 31 lent samples, the oldest first (CR 6). The first sample has this index.
pub fn phases_of(window: &[i16; 93], index: usize) -> Phases
    ensures { ThreePhases (lent_samples 31 window.now) index result }
{
    let p = phase_from(window, index, 0);
    let q = phase_from(window, index, 1);
    let r = phase_from(window, index, 2);
    Phases { p, q, r }
}

// The figures at the centre of 31 lent samples, with p, q and r from the phases that are kept (CR 6). The first sample has this index.
#[tactic(auto, unfolding(crate::specs::Report::figures_with))]
pub fn measure_kept(window: &[i16; 93], index: usize, kept: Phases, nominal: Nominal) -> Figures
    ensures { MeasuringKept (lent_samples 31 window.now) index kept nominal result }
{
    join(
        positive_sequence(window, index, 1),
        differences_of(kept),
        nominal,
    )
}
