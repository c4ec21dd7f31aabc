// The data block and the live log block of a logical block.
#[derive(Clone, Copy)]
pub struct Seats {
    pub data: Option<usize>,
    pub log: Option<usize>,
}
