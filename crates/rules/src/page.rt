use super::kind::Kind;

// What a page says.
#[derive(Clone, Copy)]
pub enum Page {
    // all 528 bytes are 255
    Erased,
    // number, kind and logical page, by the spare table
    Entry(u32, Kind, u16),
    // neither
    Junk,
}

// No sequence number is above this.
pub const NUMBER_LIMIT: u32 = 4294967294;
