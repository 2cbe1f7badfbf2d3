// The same measurement over three whole lent runs: document 01, "The report", last paragraph.
#![tactic(auto)]

ghost use Rattle.std.specs.Prelude.{◌≡◌, ◌+◌, ◌≤◌, length};
ghost use Rattle.model.specs.Filter.{lent_samples};
ghost use Rattle.runs.specs.Runs.{sample_at, differ, no_centre, RunMeasuring};
ghost use Rattle.runs.specs.Inside.{samples_from};

use model::Figures;
use refusals::Refused;
use sampling::Nominal;

// Whether the three runs differ in length.
fn are_unequal(a: &[i16], b: &[i16], c: &[i16]) -> bool
    ensures { result ≡ (differ a.now b.now c.now).due }
{
    a.len() != b.len() || b.len() != c.len()
}

// Whether the centre has fewer than 15 samples before or after it in a run.
fn is_off_centre(run: &[i16], centre: usize) -> bool
    ensures { result ≡ (no_centre run.now centre).due }
{
    !(15..run.len().saturating_sub(15)).contains(&centre)
}

// The 31 samples of three runs from a place on, a, b and c of each in turn.
#[tactic(auto, using(crate::proofs::Windows::window_is))]
fn window_from(a: &[i16], b: &[i16], c: &[i16], first: usize) -> [i16; 93]
    requires { (first + 31 ≤ length a.now) × (first + 31 ≤ length b.now) × (first + 31 ≤ length c.now) }
    ensures { lent_samples 31 result ≡ samples_from (sample_at a.now b.now c.now) first 31 }
{
    let mut window = [0i16; 93];
    for j in 0..31 {
        let at = 3 * j;
        window[at] = a[first + j];
        window[at + 1] = b[first + j];
        window[at + 2] = c[first + j];
    }
    window
}

// The report without a tag, at a centre of three runs whose first sample is index 0; refused 6, 16, 17.
#[tactic(auto, unfolding(crate::specs::Runs::measured), using(crate::proofs::Windows::window_figures))]
pub fn measure(
    a: &[i16],
    b: &[i16],
    c: &[i16],
    centre: usize,
    nominal: u8,
) -> Result<Figures, Refused>
    ensures { RunMeasuring a.now b.now c.now centre nominal result }
{
    let nominal = Nominal::try_from(nominal)?;
    if are_unequal(a, b, c) {
        return Err(Refused::RunsDiffer);
    }
    if is_off_centre(a, centre) {
        return Err(Refused::OffCentre);
    }
    let first = centre - 15;
    let window = window_from(a, b, c, first);
    Ok(model::measure(&window, first, nominal))
}
