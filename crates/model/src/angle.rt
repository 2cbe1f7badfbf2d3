// Document 01, "The angle": the phase of a positive sequence, by 24 steps.
ghost use Rattle.std.specs.Prelude.{◌≡◌, ◌-◌, ◌^◌, ◌<◌, ◌≤◌, if◌then◌else◌, nat_lt, unsigned_abs};
ghost use Rattle.model.specs.Angle.{angle_of, gains, loses, arctan, arctans, step, steps, turned, scaled, no_phase, phase_angle, phase_of};
ghost use Rattle.model.specs.Bounds.{Sized, Small, cap};

use crate::filter::Phasor;

// A whole number of 2^32nds of a turn, kept modulo 2^32.
#[derive(Clone, Copy)]
pub struct Angle {
    pub parts: u32,
}

impl Angle {
    // No turn.
    const ZERO: Angle = Angle { parts: 0 };

    // The quarter turn: 2^30.
    const QUARTER: Angle = Angle { parts: 1073741824 };

    // The half turn: 2^31.
    const HALF: Angle = Angle { parts: 2147483648 };

    // The angle of so many 2^32nds of a turn.
    fn of(parts: u32) -> Angle
        ensures { result ≡ angle_of parts }
    {
        Angle { parts }
    }

    // The angle gains so many parts.
    fn more(self, by: u32) -> Angle
        ensures { result ≡ gains self by }
    {
        Angle::of(self.parts.wrapping_add(by))
    }

    // The angle loses so many parts.
    fn fewer(self, by: u32) -> Angle
        ensures { result ≡ loses self by }
    {
        Angle::of(self.parts.wrapping_sub(by))
    }
}

// The angle at a centre, or none, where the model answers 0 beside it. They stand apart, since a slot keeps both (CR 6).
#[derive(Clone, Copy)]
pub struct Phase {
    pub angle: Angle,
    pub none: bool,
}

// A(i): the arctangent of 2^-i, rounded.
const ARCTAN: [u32; 24] = [
    536870912, 316933406, 167458907, 85004756, 42667331, 21354465, 10679838, 5340245, 2670163,
    1335087, 667544, 333772, 166886, 83443, 41722, 20861, 10430, 5215, 2608, 1304, 652, 326, 163,
    81,
];

// The first of two values where the test holds, else the second.
fn either<T: Copy>(test: bool, x: T, y: T) -> T
    ensures { result ≡ (if test then x else y) }
{
    if test { x } else { y }
}

// What a step leaves: the two parts, and the angle so far.
#[derive(Clone, Copy)]
struct Turning {
    re: i64,
    im: i64,
    angle: Angle,
}

impl Turning {
    // Step i, where a is A(i); `>>` is the floor of a quotient, towards minus infinity.
    #[tactic(auto, using(crate::proofs::Signed::signed), unfolding(crate::specs::Angle::step))]
    fn one_step(self, i: usize, a: u32) -> Turning
        requires step_number { (i < 24) × (a ≡ arctan i) }
        requires sized { Sized (2 ^ 60) self.re self.im }
        ensures { result ≡ step i self }
    {
        if self.im == 0 {
            return self;
        }
        let below = self.im < 0;
        let re_part = self.re >> i;
        let im_part = self.im >> i;
        Turning {
            re: either(below, self.re - im_part, self.re + im_part),
            im: either(below, self.im + re_part, self.im - re_part),
            angle: either(below, self.angle.fewer(a), self.angle.more(a)),
        }
    }
}

// The angle after the steps that are left, from 24 down to none. What a step left is handed on in parts: so the recursion runs as a loop.
fn steps_left(left: usize, re: i64, im: i64, angle: Angle) -> Angle
    requires at_most_24 { left ≤ 24 }
    requires sized { Sized (cap (24 - left)) re im }
    ensures { result ≡ (steps left (record { re = re; im = im; angle = angle })).angle }
{
    if left == 0 {
        return angle;
    }
    let i = 24 - left;
    let v = Turning { re, im, angle }.one_step(i, ARCTAN[i]);
    steps_left(left - 1, v.re, v.im, v.angle)
}

// Both parts times 65536.
#[tactic(auto, using(crate::proofs::Signed::signed), unfolding(crate::specs::Angle::scaled))]
fn times_65536(p: Phasor) -> Phasor
    requires { Small p }
    ensures { result ≡ scaled p }
{
    Phasor {
        re: p.re * 65536,
        im: p.im * 65536,
    }
}

// Turned into the first quadrant, with the base that the turn takes off.
#[tactic(auto, using(crate::proofs::Signed::signed), unfolding(crate::specs::Angle::turned))]
fn first_quadrant(p: Phasor) -> Turning
    requires { Sized (2 ^ 60) p.re p.im }
    ensures { result ≡ turned p }
{
    let re = p.re;
    let im = p.im;
    if (re > 0) & (im >= 0) {
        Turning {
            re,
            im,
            angle: Angle::ZERO,
        }
    } else if (re <= 0) & (im > 0) {
        Turning {
            re: im,
            im: -re,
            angle: Angle::QUARTER,
        }
    } else if (re < 0) & (im <= 0) {
        Turning {
            re: -re,
            im: -im,
            angle: Angle::HALF,
        }
    } else {
        Turning {
            re: -im,
            im: re,
            angle: Angle::HALF.more(Angle::QUARTER.parts),
        }
    }
}

// Whether a part is below the limit in size.
fn is_below(z: i64, limit: u32) -> bool
    ensures { result ≡ nat_lt (unsigned_abs z) limit }
{
    z.unsigned_abs() < u64::from(limit)
}

// Whether |re| and |im| are both below the limit: then there is no phase.
#[tactic(auto, using(crate::proofs::Signed::signed), unfolding(crate::specs::Angle::no_phase))]
fn has_no_phase(p: Phasor, limit: u32) -> bool
    ensures { result ≡ no_phase limit p }
{
    is_below(p.re, limit) & is_below(p.im, limit)
}

// The angle of a positive sequence that has a phase.
fn phase_angle(p: Phasor) -> Angle
    requires { Small p }
    ensures { result ≡ phase_angle p }
{
    let v = first_quadrant(times_65536(p));
    steps_left(24, v.re, v.im, v.angle)
}

// The phase of a positive sequence; there is none where both parts are below the limit.
#[tactic(auto, unfolding(crate::specs::Angle::phase_of))]
pub(crate) fn phase_of(p: Phasor, limit: u32) -> Phase
    requires { Small p }
    ensures { result ≡ phase_of limit p }
{
    if has_no_phase(p, limit) {
        return Phase {
            angle: Angle::ZERO,
            none: true,
        };
    }
    Phase {
        angle: phase_angle(p),
        none: false,
    }
}
