// Document 01, "The filter": the positive sequence of 29 samples.
ghost use Rattle.std.specs.Prelude.{◌≡◌, ◌+◌, ◌*◌, ◌%◌, ◌<◌, ◌≤◌, pos, ◌-ℤ◌, ◌*ℤ◌, slice_index_or, unsigned_abs};
ghost use Rattle.model.specs.Filter.{weight, offset, entry_at, phase_sum, weighted, positive, no_sample, windowed, lent_samples};
ghost use Rattle.model.specs.Bounds.{TwoTurns, Tabled, FirstTerms, Sized, Small};

// One sample of the three phases.
#[derive(Clone, Copy)]
pub struct Sample {
    pub a: i16,
    pub b: i16,
    pub c: i16,
}

// The positive sequence at a centre, as the filter's sums give it.
#[derive(Clone, Copy)]
pub(crate) struct Phasor {
    pub(crate) re: i64,
    pub(crate) im: i64,
}

// Both sums over the samples: with the cosines, and the same with the sines.
#[derive(Clone, Copy)]
struct Sums {
    cosine: i64,
    sine: i64,
}

// round(16384 × cos of 2πn/15)
const COS: [i32; 15] = [
    16384, 14968, 10963, 5063, -1713, -8192, -13255, -16026, -16026, -13255, -8192, -1713, 5063,
    10963, 14968,
];

// round(16384 × sin of 2πn/15)
const SIN: [i32; 15] = [
    0, 6664, 12176, 15582, 16294, 14189, 9630, 3406, -3406, -9630, -14189, -16294, -15582, -12176,
    -6664,
];

// Sample i of a window, in which a, b and c of each of 31 samples stand in turn.
fn sample_in(window: &[i16; 93], i: usize) -> Sample
    requires { i < 31 }
    ensures { result ≡ slice_index_or (lent_samples 31 window.now) i no_sample }
{
    let at = 3 * i;
    let a = window[at];
    let b = window[at + 1];
    let c = window[at + 2];
    Sample { a, b, c }
}

// The weight of term j, which is at offset k = j - 14: 15 - |k|.
#[tactic(auto, using(crate::proofs::Signed::signed), unfolding(crate::specs::Filter::weight, crate::specs::Filter::offset))]
fn weight_of(j: usize) -> usize
    requires { j < 29 }
    ensures { result ≡ weight (offset j) }
{
    if j < 15 { j + 1 } else { 29 - j }
}

// Two turns of a table that the sums may read: fifteen entries in turn, from any one of the first fifteen on, are then a run.
#[derive(Drop)]
struct Turns {
    entries: [i32; 30],
    ghost again: { TwoTurns entries entries },
    ghost tabled: { Tabled entries },
}

impl Turns {
    // Two turns of a table.
    fn of(table: [i32; 15]) -> Turns
        requires { Tabled table }
        ensures { TwoTurns table result.entries }
    {
        let mut entries = [0i32; 30];
        for n in 0..30 {
            entries[n] = table[n % 15];
        }
        Turns { entries }
    }

    // A number times entry n.
    fn times_entry(&self, x: i32, n: usize) -> i32
        requires within { (n < 30) × (unsigned_abs x ≤ 65536) }
        ensures is { result ≡ x *ℤ entry_at self.now.entries n }
        ensures small { unsigned_abs result ≤ 1073741824 }
    {
        x * self.entries[n]
    }

    // a·cos n + b·cos(n-5) + c·cos(n-10) of a sample, or the same with sin, where m is n - 5 in either turn. The three entries add to 0, so c needs
    // none of its own: it counts against a and against b.
    fn phase_sum(&self, s: Sample, n: usize, m: usize) -> i32
        requires entries { (n < 30) × (m < 30) × (m % 15 ≡ (n + 10) % 15) }
        ensures is { result ≡ phase_sum self.now.entries s n }
        ensures small { unsigned_abs result ≤ 1610612736 }
    {
        let a = self.times_entry(minus(s.a, s.c), n);
        let b = self.times_entry(minus(s.b, s.c), m);
        a + b
    }

    // Term j of a sum: the weight times the phase sum of its sample, which meets entry n; m is n - 5 in either turn.
    fn term_of(&self, s: Sample, n: usize, m: usize, j: usize) -> i64
        requires entries { (n < 30) × (m < 30) × (m % 15 ≡ (n + 10) % 15) }
        requires term { j < 29 }
        ensures is { result ≡ pos (weight (offset j)) *ℤ phase_sum self.now.entries s n }
        ensures small { unsigned_abs result ≤ weight (offset j) * 1610612736 }
    {
        weight_of(j) as i64 * i64::from(self.phase_sum(s, n, m))
    }
}

// x minus y, in 32 bits.
fn minus(x: i16, y: i16) -> i32
    ensures is { result ≡ x -ℤ y }
    ensures small { unsigned_abs result ≤ 65536 }
{
    i32::from(x) - i32::from(y)
}

// Both tables that the sums read, each in two turns.
#[derive(Drop)]
struct Tables {
    cosines: Turns,
    sines: Turns,
}

impl Tables {
    // Both sums of the first terms with `count` more, of the 29 samples of a window from a place on, where n is the index of the window's first
    // sample mod 15. The first of those added is term 0 or term 15, which meet the same entry.
    fn with_terms(
        &self,
        sums: Sums,
        first: usize,
        count: usize,
        window: &[i16; 93],
        n: usize,
        from: usize,
    ) -> Sums
        requires run { (n < 15) × (from ≤ 2) × (first % 15 ≡ 0) × (count ≤ 15) × (first + count ≤ 29) }
        requires cosine_first { FirstTerms self.now.cosines.entries (lent_samples 31 window.now) n from first sums.cosine }
        requires sine_first { FirstTerms self.now.sines.entries (lent_samples 31 window.now) n from first sums.sine }
        ensures cosine { FirstTerms self.now.cosines.entries (lent_samples 31 window.now) n from (first + count) result.cosine }
        ensures sine { FirstTerms self.now.sines.entries (lent_samples 31 window.now) n from (first + count) result.sine }
    {
        let entry = (n + from) % 15;
        let back = (entry + 10) % 15;
        let mut cosine = sums.cosine;
        let mut sine = sums.sine;
        for i in 0..count {
            let j = first + i;
            let s = sample_in(window, from + j);
            cosine += self.cosines.term_of(s, entry + i, back + i, j);
            sine += self.sines.term_of(s, entry + i, back + i, j);
        }
        Sums { cosine, sine }
    }

    // The weighted sums at the centre of the 29 samples of a window from a place on, where n is the index of the window's first sample mod 15:
    // fifteen terms with the rising weights, then fourteen with the falling ones.
    fn weighted_sums(&self, window: &[i16; 93], n: usize, from: usize) -> Sums
        requires placed { (n < 15) × (from ≤ 2) }
        ensures cosine { result.cosine ≡ weighted self.now.cosines.entries (windowed (lent_samples 31 window.now) n) (n + from + 14) }
        ensures sine { result.sine ≡ weighted self.now.sines.entries (windowed (lent_samples 31 window.now) n) (n + from + 14) }
        ensures small { Sized 362387865600 result.cosine result.sine }
    {
        let none = Sums { cosine: 0, sine: 0 };
        let rising = self.with_terms(none, 0, 15, window, n, from);
        self.with_terms(rising, 15, 14, window, n, from)
    }
}

// The positive sequence at the centre of the 29 samples of a window from a place on; the window's first sample has this index.
pub(crate) fn positive_sequence(window: &[i16; 93], index: usize, from: usize) -> Phasor
    requires { from ≤ 2 }
    ensures is { result ≡ positive (windowed (lent_samples 31 window.now) index) (index + from + 14) }
    ensures small { Small result }
{
    let tables = Tables {
        cosines: Turns::of(COS),
        sines: Turns::of(SIN),
    };
    let sums = tables.weighted_sums(window, index % 15, from);
    Phasor {
        re: sums.cosine,
        im: -sums.sine,
    }
}
