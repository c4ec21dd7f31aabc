// A logical block made anew: which blocks, and after which number.
ghost use Rattle.std.specs.Prelude.{◌≡◌};
ghost use Rattle.plans.specs.Plans.{renewal_by};

use roles::census::Census;
use roles::seats::Seats;

#[derive(Clone, Copy)]
pub struct Renewal {
    // the logical block, the block taken, its log block and its data block
    pub logical: usize,
    pub into: Option<usize>,
    pub log: Option<usize>,
    pub data: Option<usize>,
    // the highest number so far: the block taken gets the next one
    pub highest: u32,
}

// Of logical block l, whose blocks are those of seats.
pub fn by(census: &Census, l: usize, seats: Seats) -> Renewal
    ensures { result ≡ renewal_by census.now l seats }
{
    Renewal {
        logical: l,
        into: census.free,
        log: seats.log,
        data: seats.data,
        highest: census.highest,
    }
}
