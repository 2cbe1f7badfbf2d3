// The file is measured as one feed in slot 0 of the bank: a whole header opens it, and each whole sample is pushed to it.
ghost use Rattle.std.specs.Prelude.{◌≡◌};
ghost use Rattle.bank.specs.Calls.{Outcome, settled, pushed_at};
ghost use Rattle.header.specs.Header.{headed};
ghost use Rattle.phs.specs.Stream.{sampled, opened_in, begun};
ghost use Rattle.phs.specs.Inside.{Ends};

use crate::line::{self, LINE};
use header::{Header, read_header};
use model::Sample;
use refusals::Refused;

// The report lines and the samples taken so far.
#[derive(Clone, Copy)]
pub(crate) struct Counts {
    pub(crate) reports: u64,
    pub(crate) samples: u64,
}

impl Counts {
    // Nothing is taken.
    pub(crate) const NONE: Counts = Counts {
        reports: 0,
        samples: 0,
    };
}

// The header is whole: a feed is opened, and its line is written. Answers the counts, and how long the line is.
pub(crate) fn begin(
    h: [u8; 11],
    bank: &mut [u8],
    line: &mut [u8; LINE],
) -> Result<(Counts, usize), Refused>
    ensures { Ends (begun bank.old (headed h)) (record { reports = 0; samples = 0 }) line.old result bank.new line.new }
{
    let header = read_header(&h)?;
    open_feed(bank, header)?;
    Ok((Counts::NONE, line::put_head(header, line)))
}

// A feed is opened in slot 0 of the bank, which is cleared for it.
fn open_feed(bank: &mut [u8], h: Header) -> Result<(), Refused>
    ensures { ◌≡◌ {A = Outcome} (record { answer = settled result; bank = bank.new }) (opened_in bank.old h.nominal h.rate h.soc) }
{
    bank::clear(bank)?;
    bank::open(bank, 0, h.nominal, h.rate, h.soc)
}

// The sample is whole: it is pushed, and the report that comes with it is written. Answers the counts, and how long the text is.
pub(crate) fn take_sample(
    c: Counts,
    bank: &mut [u8],
    s: Sample,
    line: &mut [u8; LINE],
) -> Result<(Counts, usize), Refused>
    ensures { Ends (sampled c.reports c.samples (pushed_at bank.old 0 s)) c line.old result bank.new line.new }
{
    let due = bank::push(bank, 0, s)?;
    let samples = c.samples.wrapping_add(1);
    match due {
        None => Ok((Counts { samples, ..c }, 0)),
        Some(report) => {
            let reports = c.reports.wrapping_add(1);
            Ok((Counts { reports, samples }, line::put_report(report, line)))
        }
    }
}
