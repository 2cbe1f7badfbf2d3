// One feed as a value: its head, its thirty-one places, the three phases that it keeps, and what a sample does to it.
#![tactic(auto)]

mod places;

ghost use Rattle.std.specs.Prelude.{◌≡◌, true, false, cond, ◌%◌, ◌≤◌, eqb, MatchResult};
ghost use Rattle.std.specs.Bool.{then_some};
ghost use Rattle.model.specs.Filter.{lent_samples};
ghost use Rattle.sampling.specs.Tags.{spacing};
ghost use Rattle.sampling.specs.Sampling.{sampling_of};
ghost use Rattle.feed.specs.Answers.{taken, said};
ghost use Rattle.feed.specs.Kept.{zero_phase, moved_on};
ghost use Rattle.feed.specs.Ring.{unserved, uneven, early, faulty, opened, end_of_time_of, next_head, pushed, worked_out, Pushing};
ghost use Rattle.refusals.specs.declared.Refused.TheVariants.{Damaged, EndOfTime};
ghost use Rattle.feed.specs.Inside.{centre_at, due_with, report_with, newest_with, phases_with};

use model::{Angle, Phase, Phases, Sample, measure_kept, newest_phase, phases_of};
use places::Place;
pub use places::{place_of, sample_of};
use refusals::Refused;
use sampling::{kept_rate, nominal_of, served_nominal, served_rate};

// The numbers of a feed: what it is opened with, how many samples it holds, where the next one stands and where it goes.
#[derive(Clone, Copy)]
pub struct Head {
    pub nominal: u8,
    pub rate: u8,
    pub held: u8,
    // SOC of the next sample, and its index in the second
    pub soc: u32,
    pub index: u16,
    // the next place, 0 to 30
    pub place: u8,
}

// A feed: its head, and thirty-one places of six bytes: a, b and c of a sample, two bytes each, big-endian.
// With them the phases at its three newest centres, the oldest first (CR 6).
#[derive(Clone, Copy)]
pub struct Feed {
    pub head: Head,
    pub places: [u8; 186],
    pub kept: Phases,
}

// A report: its tag, then the figures at its centre.
#[derive(Clone, Copy)]
pub struct Report {
    pub soc: u32,
    pub frame: u8,
    pub re: i64,
    pub im: i64,
    pub d1: i32,
    pub d2: i32,
    // the no-phase mark, 1 or 0: a number, since a report prints it
    pub mark: u8,
    // re and im in peak counts
    pub re_peak: f64,
    pub im_peak: f64,
    // the frequency deviation in Hz
    pub deviation: f64,
    // the rate of change of frequency in Hz/s
    pub rocof: f64,
}

// The next feed, beside the answer: refused, taken with a report, or taken without one.
#[derive(Clone, Copy)]
pub struct Pushed {
    pub feed: Feed,
    pub answer: Result<Option<Report>, Refused>,
}

// Zero, with flag 0: what is kept of a centre until it has 29 samples.
const ZERO_PHASE: Phase = Phase {
    angle: Angle { parts: 0 },
    none: false,
};

// None of the three newest centres has 29 samples.
const ZERO_PHASES: Phases = Phases {
    p: ZERO_PHASE,
    q: ZERO_PHASE,
    r: ZERO_PHASE,
};

// A centre's phase where the centre has 29 samples, else zero.
fn phase_if(enough: bool, phase: Phase) -> Phase
    ensures { result ≡ cond enough phase zero_phase }
{
    if enough { phase } else { ZERO_PHASE }
}

// The kept phases moved on by one, with the newest centre's last.
fn moved_on(kept: Phases, newest: Phase) -> Phases
    ensures { result ≡ moved_on kept newest }
{
    Phases {
        p: kept.q,
        q: kept.r,
        r: newest,
    }
}

// Where a report's centre stands: its SOC, and its index in the second.
#[derive(Clone, Copy)]
struct Centre {
    soc: u32,
    index: u16,
}

impl Head {
    // Sampling is 15 per nominal cycle.
    fn sampling(self) -> u16
        ensures { result ≡ sampling_of self.nominal }
    {
        15 * u16::from(self.nominal)
    }

    // An unserved nominal or rate (a kept 0 included).
    #[tactic(auto, unfolding(crate::specs::Ring::unserved))]
    fn is_unserved(self) -> bool
        ensures { result ≡ unserved self }
    {
        !served_nominal(self.nominal) | !served_rate(self.nominal, self.rate)
    }

    // Fewer than 31 held where place or index differs from held.
    #[tactic(auto, unfolding(crate::specs::Ring::uneven))]
    fn is_uneven(self) -> bool
        ensures { result ≡ uneven self }
    {
        (self.held < 31) & ((self.place != self.held) | (self.index != u16::from(self.held)))
    }

    // 31 held with SOC 0 and index under 31.
    #[tactic(auto, unfolding(crate::specs::Ring::early))]
    fn is_early(self) -> bool
        ensures { result ≡ early self }
    {
        (self.held == 31) & ((self.soc == 0) & (self.index < 31))
    }

    // Whether the numbers are faulty: the damage of a slot that its numbers show.
    #[tactic(auto, unfolding(crate::specs::Ring::faulty))]
    pub fn is_faulty(self) -> bool
        ensures { result ≡ faulty self }
    {
        self.is_unserved()
            | (self.index >= self.sampling())
            | (self.held > 31)
            | (self.place > 30)
            | self.is_uneven()
            | self.is_early()
    }

    // The head with its numbers in order, or refused 3.
    fn sound(self) -> Result<SoundHead, Refused>
        ensures { MatchResult result (λ h. h.head ≡ self) (λ r. (r ≡ Damaged) × (faulty self ≡ true)) }
    {
        if self.is_faulty() {
            Err(Refused::Damaged)
        } else {
            Ok(SoundHead { head: self })
        }
    }
}

// A head whose numbers are in order: `Head::sound` makes it.
#[derive(Clone, Copy)]
struct SoundHead {
    head: Head,
    ghost in_order: { faulty head ≡ false },
}

impl SoundHead {
    // The next place.
    fn place(self) -> Place
        ensures { result.number ≡ self.head.place }
    {
        Place {
            number: self.head.place,
        }
    }

    // The head after one sample more: one index on, or at the next second's index 0; refused 8 where SOC 4294967295 has no next second.
    fn next(self) -> Result<Head, Refused>
        ensures { MatchResult result (λ h. ((end_of_time_of self.head).due ≡ false) × (h ≡ next_head self.head)) (λ r. (r ≡ EndOfTime) × ((end_of_time_of self.head).due ≡ true)) }
    {
        let next = Head {
            held: (self.head.held + 1).min(31),
            index: self.head.index + 1,
            place: self.place().next().number,
            ..self.head
        };
        if next.index < self.head.sampling() {
            return Ok(next);
        }
        match self.head.soc.checked_add(1) {
            Some(second) => Ok(Head {
                soc: second,
                index: 0,
                ..next
            }),
            None => Err(Refused::EndOfTime),
        }
    }

    // D = sampling / rate.
    fn spacing(self) -> u16
        ensures { result ≡ spacing self.head.nominal self.head.rate }
    {
        self.head.sampling() / u16::from(self.head.rate)
    }

    // Whether an index is a multiple of D: D goes into the sampling `rate` times, so exactly where index × rate is a multiple of the sampling.
    fn is_multiple(self, index: u16) -> bool
        ensures { result ≡ eqb (index % spacing self.head.nominal self.head.rate) 0 }
    {
        let product = u32::from(index) * u32::from(self.head.rate);
        if self.head.nominal == 50 {
            product % 750 == 0
        } else {
            product % 900 == 0
        }
    }

    // The sample 15 before the next one: of the same second, or of the second before.
    fn centre(self) -> Centre
        requires { 30 ≤ self.head.held }
        ensures { result ≡ centre_at self.head }
    {
        if self.head.index >= 15 {
            return Centre {
                soc: self.head.soc,
                index: self.head.index - 15,
            };
        }
        Centre {
            soc: self.head.soc - 1,
            index: self.head.index + self.head.sampling() - 15,
        }
    }

    // The centre of the report that comes with the next sample, if one is due: 31 are then held, and its index is a multiple of D.
    #[tactic(auto, unfolding(crate::specs::Inside::due_with))]
    fn due(self) -> Option<Centre>
        ensures { result ≡ then_some (due_with self.head) (centre_at self.head) }
    {
        if self.head.held < 30 {
            return None;
        }
        let centre = self.centre();
        self.is_multiple(centre.index).then_some(centre)
    }

    // The phase at the newest centre that comes with the next sample, which stands 14 behind it; zero while fewer than 29 are then held. The first
    // of the thirty-one then held stands 30 before the next, at the same index mod 15.
    fn newest(self, window: &[i16; 93]) -> Phase
        ensures { result ≡ newest_with self.head (lent_samples 31 window.now) }
    {
        phase_if(
            self.head.held >= 28,
            newest_phase(window, usize::from(self.head.index)),
        )
    }

    // The phases at the three newest centres of the samples held; zero where a centre has not 29. The newest sample stands one before the next,
    // and so the first of thirty-one stands 31 before it, which is 14 on mod 15.
    #[tactic(auto, unfolding(crate::specs::Inside::phase_over))]
    fn held_phases(self, window: &[i16; 93]) -> Phases
        ensures { result ≡ phases_with self.head (lent_samples 31 window.now) }
    {
        let all = phases_of(window, usize::from(self.head.index) + 14);
        Phases {
            p: phase_if(self.head.held >= 31, all.p),
            q: phase_if(self.head.held >= 30, all.q),
            r: phase_if(self.head.held >= 29, all.r),
        }
    }

    // The report that comes with the next sample, if one is due, of the thirty-one samples and the phases then held: tagged with its centre's SOC
    // and frame.
    fn report(self, window: &[i16; 93], kept: Phases) -> Option<Report>
        ensures { said (Ok result) ≡ cond (due_with self.head) (report_with self.head (lent_samples 31 window.now) kept) taken }
    {
        let centre = self.due()?;
        // below the rate, so eight bits hold it
        let frame = (centre.index / self.spacing()) as u8;
        let figures = measure_kept(
            window,
            usize::from(self.head.index),
            kept,
            nominal_of(self.head.nominal),
        );
        Some(Report {
            soc: centre.soc,
            frame,
            re: figures.re,
            im: figures.im,
            d1: figures.d1,
            d2: figures.d2,
            mark: figures.mark,
            re_peak: figures.re_peak,
            im_peak: figures.im_peak,
            deviation: figures.deviation,
            rocof: figures.rocof,
        })
    }
}

impl Feed {
    // A feed as it is opened: the nominal, the kept rate, the SOC, index 0, none held, place 0, all places zero, the kept
    // phases zero (CR 6). Of an unserved nominal or rate the numbers are faulty, and each push is refused 3.
    #[tactic(auto, unfolding(crate::specs::Ring::opened, crate::specs::Places::zeros))]
    pub fn open(nominal: u8, rate: u8, soc: u32) -> Feed
        ensures { result ≡ opened nominal rate soc }
    {
        let head = Head {
            nominal,
            rate: kept_rate(nominal, rate),
            held: 0,
            soc,
            index: 0,
            place: 0,
        };
        Feed {
            head,
            places: [0; 186],
            kept: ZERO_PHASES,
        }
    }

    // One sample more, refused 3, 8, and then nothing changes: it goes in the next place, which then moves on one, and the kept phases move on by
    // one, with the newest centre's last (CR 6); with the report if one is due. The window is read before the sample is stored, since bytes that
    // were just written are slow to read.
    fn take(&mut self, s: Sample) -> Result<Option<Report>, Refused>
        ensures { record { answer = said result; feed = self.new } ≡ pushed self.old s }
    {
        let head = self.head.sound()?;
        let next = head.next()?;
        let window = head.place().window_with(&self.places, s);
        let kept = moved_on(self.kept, head.newest(&window));
        head.place().put(&mut self.places, s);
        self.head = next;
        self.kept = kept;
        Ok(head.report(&window, kept))
    }

    // One sample more: refused 3, 8, and then nothing changes; else it is taken, with the report if one is due.
    pub fn push(self, s: Sample) -> Pushed
        ensures { Pushing self s result }
    {
        let mut feed = self;
        let answer = feed.take(s);
        Pushed { feed, answer }
    }

    // The feed with its kept phases worked out from the samples that it holds (CR 6); one whose numbers are faulty stays as it is.
    pub fn worked_out(self) -> Feed
        ensures { result ≡ worked_out self }
    {
        let Ok(head) = self.head.sound() else {
            return self;
        };
        let window = head.place().window(&self.places);
        Feed {
            kept: head.held_phases(&window),
            ..self
        }
    }
}
