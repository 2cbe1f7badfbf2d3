// The verdict on a device report: each error against its limit, what is left out, and the refusals in their order.
ghost use Rattle.std.specs.Prelude.{◌≡◌};
ghost use Rattle.verdict.specs.Judging.{verdict_on, is_left_out, no_reference, Judging};

use crate::errors::{Device, Errors, Reference, errors_of};
use crate::limits::{Limits, TABLE_2011, limits_in};
use refusals::Refused;

// Whether each error is within its limit.
#[derive(Clone, Copy)]
pub struct Verdict {
    pub tve: bool,
    pub fe: bool,
    pub rfe: bool,
}

// Each error against its limit: meeting the limit is within.
#[tactic(auto, unfolding(crate::specs::Judging::verdict_on))]
fn verdict_on(errors: Errors, limits: Limits) -> Verdict
    ensures { result ≡ verdict_on errors limits }
{
    let percent = u128::from(limits.tve);
    let error = u128::from(errors.error_squared) * 10000;
    let allowed = percent * percent * u128::from(errors.reference_squared);
    Verdict {
        tve: error <= allowed,
        fe: errors.frequency <= u64::from(limits.fe),
        rfe: errors.rocof <= u64::from(limits.rfe),
    }
}

// Refusal 9: reference re and im both 0.
fn no_reference(reference: Reference) -> bool
    ensures { result ≡ (no_reference reference).due }
{
    (reference.re, reference.im) == (0, 0)
}

// In ramp tests m from -2 to 2 (CR 1); in steady tests m has no effect.
fn left_out(test: u8, m: i32) -> bool
    ensures { result ≡ is_left_out test m }
{
    test == 1 && (-2..=2).contains(&m)
}

// The judging of one device report: refusals 10, 11, 9, then "left out", with no verdicts (`None`), then the three verdicts.
// Class and test are numbers, since 10 and 11 are for those that name none.
#[tactic(auto, unfolding(crate::specs::Judging::judgement))]
pub fn judge(
    class: u8,
    test: u8,
    m: i32,
    device: Device,
    reference: Reference,
) -> Result<Option<Verdict>, Refused>
    ensures { Judging class test m device reference result }
{
    if class > 1 {
        return Err(Refused::Class);
    }
    if test > 1 {
        return Err(Refused::Test);
    }
    if no_reference(reference) {
        return Err(Refused::NoReference);
    }
    if left_out(test, m) {
        return Ok(None);
    }
    let errors = errors_of(device, reference);
    let limits = limits_in(TABLE_2011, usize::from(class), usize::from(test));
    Ok(Some(verdict_on(errors, limits)))
}
