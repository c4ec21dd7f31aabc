// The plan of a write: what it needs, which blocks, which numbers.
ghost use Rattle.std.specs.Prelude.{◌≡◌};
ghost use Rattle.rules.specs.Steps.{victim};
ghost use Rattle.rules.specs.Facts.{Limits};
ghost use Rattle.roles.specs.Kept.{recorded_by};
ghost use Rattle.plans.specs.Plans.{room_plan, free_after_renewal, merge_plan, plan_of};

use super::renewal;
use super::renewal::Renewal;
use roles::records::{Counted, Records};
use rules::block::Block;
use rules::shape::Shape;

#[derive(Clone, Copy)]
pub struct Plan {
    // new numbers needed: 0 with room in the log block, 1 with a fresh one, 2 after a merge; a count, which is added to a number here and in refusal 7
    pub needed: u32,
    // the merge that comes first, if 2 are needed
    pub merge: Option<Renewal>,
    // the block that gets the page, its place there, and the number to which `needed` is added
    pub block: Option<usize>,
    pub place: usize,
    pub number: u32,
    // the data block that goes when the log block becomes complete
    pub former: Option<usize>,
}

// Room in the log block with record x: its next page. held is the data block.
fn append(s: Shape, x: Block, log: Option<usize>, held: Option<usize>, a: usize) -> Plan
    requires { Limits s }
    ensures { result ≡ room_plan s x log held a }
{
    let place = usize::from(x.filled);
    let ordered = x.ordered & (a % s.pages == place);
    let completes = (place + 1 == s.pages) & ordered;
    Plan {
        needed: 0,
        merge: None,
        block: log,
        place,
        number: x.number,
        former: if completes { held } else { None },
    }
}

// Whether block j is free after the merge, which erases its log block and its data block.
fn is_free_after(records: &Records, merge: &Renewal, j: usize) -> bool
    ensures { result ≡ free_after_renewal (recorded_by records.now) merge.now j }
{
    let erased = (merge.log == Some(j)) | (merge.data == Some(j));
    (merge.into != Some(j)) & (erased | records.block(j).state.is_free())
}

// Logical block l is merged first.
fn merge_first(counted: &Counted, l: usize) -> Plan
    ensures { result ≡ merge_plan counted.now.records.shape (recorded_by counted.now.records) l }
{
    let records = &counted.records;
    let merge = renewal::by(&counted.census, l, records.seats(l));
    Plan {
        needed: 2,
        merge: Some(merge),
        block: (0..records.shape.blocks).find(|&j| is_free_after(records, &merge, j)),
        place: 0,
        number: counted.census.highest,
        former: None,
    }
}

// The logical block of the live log block with the lowest number; 0 where there is none, as the definition has it.
fn oldest(counted: &Counted) -> usize
    ensures { result ≡ victim counted.now.records.shape (recorded_by counted.now.records) }
{
    match counted.census.eldest {
        Some(e) => usize::from(counted.records.block(e).logical),
        None => 0,
    }
}

// The plan. Not inlined: the stack of a command holds the records, and what the plan lays there beside them goes with it.
#[inline(never)]
pub fn of(counted: &Counted, a: usize) -> Plan
    requires { Limits counted.now.records.shape }
    ensures { result ≡ plan_of counted.now.records.shape (recorded_by counted.now.records) a }
{
    let records = &counted.records;
    let s = records.shape;
    let l = a / s.pages;
    let seats = records.seats(l);
    match seats.log {
        Some(log) => {
            let x = records.block(log);
            if usize::from(x.filled) < s.pages {
                append(s, x, seats.log, seats.data, a)
            } else {
                merge_first(counted, l)
            }
        }
        None if counted.census.live < s.logs => Plan {
            needed: 1,
            merge: None,
            block: counted.census.free,
            place: 0,
            number: counted.census.highest,
            former: None,
        },
        None => merge_first(counted, oldest(counted)),
    }
}
