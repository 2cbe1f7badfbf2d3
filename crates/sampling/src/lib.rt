// Document 01, "Sampling and tags", with CR 2: the nominal frequency and its sampling, and which rates are served.
#![tactic(auto)]

ghost use Rattle.std.specs.Prelude.{◌≡◌};
ghost use Rattle.sampling.specs.Sampling.{sampling};
ghost use Rattle.sampling.specs.Tags.{served_nominal, served_rate, kept_rate, nominal_of, Naming};

use refusals::Refused;

// Nominal frequency: 50 or 60 Hz.
#[derive(Clone, Copy)]
pub enum Nominal {
    Fifty,
    Sixty,
}

impl Nominal {
    // Samples a second: 15 per nominal cycle.
    pub fn sampling(self) -> u32
        ensures { result ≡ sampling self }
    {
        match self {
            Nominal::Fifty => 750,
            Nominal::Sixty => 900,
        }
    }
}

// A number that is no nominal is refused 6.
impl TryFrom<u8> for Nominal {
    type Error = Refused;

    ghost try_from_gives = { Naming };

    fn try_from(nominal: u8) -> Result<Nominal, Refused> {
        match nominal {
            50 => Ok(Nominal::Fifty),
            60 => Ok(Nominal::Sixty),
            _ => Err(Refused::Nominal),
        }
    }
}

// Nominal frequency is 50 or 60 Hz.
pub fn served_nominal(nominal: u8) -> bool
    ensures { result ≡ served_nominal nominal }
{
    (nominal == 50) | (nominal == 60)
}

// Served rates: 10, 25, 50 reports a second at 50 Hz; 10, 12, 15, 20, 30, 60 at 60 Hz.
#[tactic(auto, unfolding(crate::specs::Tags::served_rate))]
pub fn served_rate(nominal: u8, rate: u8) -> bool
    ensures { result ≡ served_rate nominal rate }
{
    match nominal {
        50 => matches!(rate, 10 | 25 | 50),
        60 => matches!(rate, 10 | 12 | 15 | 20 | 30 | 60),
        _ => false,
    }
}

// CR 2: at opening, rate 0 stands for the nominal frequency, and that is what is kept.
#[tactic(auto, unfolding(crate::specs::Tags::kept_rate))]
pub fn kept_rate(nominal: u8, rate: u8) -> u8
    ensures { result ≡ kept_rate nominal rate }
{
    match rate {
        0 => nominal,
        _ => rate,
    }
}

// 50 is `Fifty`; every other number is answered as `Sixty`, and refusal 6 is for the caller to give.
pub fn nominal_of(nominal: u8) -> Nominal
    ensures { result ≡ nominal_of nominal }
{
    match nominal {
        50 => Nominal::Fifty,
        _ => Nominal::Sixty,
    }
}
