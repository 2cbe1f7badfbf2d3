// Document 01, "The verdict": how far a device report is from its reference.
ghost use Rattle.std.specs.Prelude.{◌≡◌, ◌+◌, ◌*◌};
ghost use Rattle.verdict.specs.Errors.{error_squared, apart_by, errors_of};

// A device report: the phasor in counts, the frequency deviation in mHz, ROCOF in hundredths of Hz/s.
#[derive(Clone, Copy)]
pub struct Device {
    pub re: i16,
    pub im: i16,
    pub deviation: i16,
    pub rocof: i16,
}

// The reference figures: the phasor in the same counts, the frequency deviation in µHz, ROCOF in µHz/s.
#[derive(Clone, Copy)]
pub struct Reference {
    pub re: i16,
    pub im: i16,
    pub deviation: i32,
    pub rocof: i32,
}

// How far a report is from its reference.
#[derive(Clone, Copy)]
pub(crate) struct Errors {
    // dr² + di²
    pub(crate) error_squared: u64,
    // re² + im² of the reference, in the same square counts
    pub(crate) reference_squared: u64,
    // µHz
    pub(crate) frequency: u64,
    // µHz/s
    pub(crate) rocof: u64,
}

// x² + y²
fn squares_of(x: u16, y: u16) -> u64
    ensures { result ≡ x * x + y * y }
{
    let (x, y) = (u64::from(x), u64::from(y));
    x * x + y * y
}

// |unit·device - reference|, where a device's figure is in units of so many of the reference's.
fn apart(unit: u16, device: i16, reference: i32) -> u64
    ensures { result ≡ apart_by unit device reference }
{
    let figure = i64::from(unit) * i64::from(device);
    figure.abs_diff(i64::from(reference))
}

// dr² + di²
fn error_squared(device: Device, reference: Reference) -> u64
    ensures { result ≡ error_squared device reference }
{
    squares_of(
        device.re.abs_diff(reference.re),
        device.im.abs_diff(reference.im),
    )
}

// The errors of a device report: dr² + di², re² + im² of the reference, FE in µHz, RFE in µHz/s.
#[tactic(auto, unfolding(crate::specs::Errors::errors_of))]
pub(crate) fn errors_of(device: Device, reference: Reference) -> Errors
    ensures { result ≡ errors_of device reference }
{
    Errors {
        error_squared: error_squared(device, reference),
        reference_squared: squares_of(reference.re.unsigned_abs(), reference.im.unsigned_abs()),
        frequency: apart(1000, device.deviation, reference.deviation),
        rocof: apart(10000, device.rocof, reference.rocof),
    }
}
