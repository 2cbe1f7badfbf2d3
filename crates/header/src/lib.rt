// Document 01, "PHS files and the listing", with CR 2: the eleven bytes of a header.
#![tactic(auto)]

ghost use Rattle.std.specs.Prelude.{◌≡◌};
ghost use Rattle.header.specs.Header.{Heading, meant_rate};

use bits::{be16, be32};
use refusals::Refused;
use sampling::Nominal;

// What a header says: the version, and what it opens a feed with, the rate being the one kept.
#[derive(Clone, Copy)]
pub struct Header {
    pub version: u16,
    pub nominal: u8,
    pub rate: u8,
    pub soc: u32,
}

// Reads the header that these bytes begin with: refused 14, 12, 13, 6, 7.
#[tactic(auto, unfolding(crate::specs::Header::headed, crate::specs::Header::is_mark, crate::specs::Header::version_in, crate::specs::Header::soc_in))]
pub fn read_header(h: &[u8]) -> Result<Header, Refused>
    ensures { Heading h.now result }
{
    if h.len() < 11 {
        return Err(Refused::HeaderCut);
    }
    if !h.starts_with(b"PHS") {
        return Err(Refused::Mark);
    }
    let version = be16(h[3], h[4]);
    if !((version == 1) | (version == 2)) {
        return Err(Refused::Version);
    }
    let nominal = h[5];
    Nominal::try_from(nominal)?;
    let rate = h[6];
    if !(sampling::served_rate(nominal, rate) | (rate == 0)) {
        return Err(Refused::Rate);
    }
    let meant = meant_rate(version, nominal, rate);
    Ok(Header {
        version,
        nominal,
        rate: meant,
        soc: be32(h[7], h[8], h[9], h[10]),
    })
}

// CR 2: a version 1 file with rate 0 means 10, under which it was recorded; else the rate is what an opening keeps.
#[tactic(auto, unfolding(crate::specs::Header::meant_rate))]
fn meant_rate(version: u16, nominal: u8, rate: u8) -> u8
    ensures { result ≡ meant_rate version nominal rate }
{
    match (version, rate) {
        (1, 0) => 10,
        _ => sampling::kept_rate(nominal, rate),
    }
}
