// Document 02, CR 4: what the bench supplies.

// What the bench configured.
#[derive(Clone, Copy)]
pub struct Configured {
    pub nominal: u8,
    // reports a second
    pub rate: u8,
    pub id: u16,
    // how many parts of the second FRACSEC counts
    pub time_base: u32,
}

// The tag that the bench expects.
#[derive(Clone, Copy)]
pub struct Tag {
    pub soc: u32,
    pub frame: u32,
}
