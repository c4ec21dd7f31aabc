// W5 to W7: what no two blocks may have in common, and all rules together.
ghost use Rattle.std.specs.Prelude.{◌≡◌, ◌<◌};
ghost use Rattle.rules.specs.Shape.{most};
ghost use Rattle.rules.specs.WellFormed.{W5, W6, well_formed};
ghost use Rattle.roles.specs.Kept.{recorded_by};
ghost use Rattle.refusals.specs.Clashes.{numbers_in, apart_below};

use roles::records::{Counted, Records};
use rules::shape::MOST;
use std::array;

// The number of each block in an array of their own, 0 for a block that is not used: so they are compared several at a time, as they could not be with the records between them.
fn numbers_in(records: &Records) -> [u32; MOST]
    ensures { result ≡ numbers_in (recorded_by records.now) }
{
    array::from_fn(|j| records.block(j).number)
}

// Whether block i has no number, or another one than each block below it. Each is looked at, for the same reason.
fn apart_below(own: &[u32; MOST], i: usize) -> bool
    requires { i < most }
    ensures { result ≡ apart_below own.now i }
{
    let n = own[i];
    let mut all = true;
    for other in &own[..i] {
        all &= *other != n;
    }
    (n == 0) | all
}

// W5, by pairs.
fn numbers_apart(records: &Records) -> bool
    ensures { result ≡ W5 records.now.shape (recorded_by records.now) }
{
    let own = numbers_in(records);
    let mut all = true;
    for i in 0..records.shape.blocks {
        all &= apart_below(&own, i);
    }
    all
}

// W6, in one pass: `taken` says of which logical blocks a live log block was met.
fn logs_apart(records: &Records) -> bool
    ensures { result ≡ W6 records.now.shape (recorded_by records.now) }
{
    let mut taken = [false; MOST];
    let mut all = true;
    for i in 0..records.shape.blocks {
        let live = records.is_live(i);
        let l = usize::from(records.block(i).logical);
        all &= !(live & taken[l]);
        taken[l] |= live;
    }
    all
}

// W1 to W7.
pub fn is_well_formed(counted: &Counted) -> bool
    ensures { result ≡ well_formed counted.now.records.shape (recorded_by counted.now.records) }
{
    let Counted {
        records,
        census,
        ..
    } = counted;
    census.sound
        & numbers_apart(records)
        & logs_apart(records)
        & (census.live <= records.shape.logs)
}
