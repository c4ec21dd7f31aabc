// Write and block write: the refusals, the plan, its steps.

#![tactic(auto)]

ghost use Rattle.rules.specs.Facts.{image_of};
ghost use Rattle.rules.specs.Replies.{answer_of};
ghost use Rattle.rules.specs.Promises.{WriteDone, BlockWriteDone};

use plans::{plan, renewal};
use roles::records::{Counted, Room};
use rules::answer::Answer;
use rules::refusal::Refusal;
use rules::shape::Shape;
use steps::budget::Budget;
use steps::run::Run;

fn write_if_well(
    bytes: &mut [u8],
    spare: &mut [u8],
    page: &[u8],
    s: Shape,
    a: usize,
    cut: usize,
) -> Result<Answer, Refusal>
    ensures { WriteDone s (image_of bytes.old spare.old)
        a page.now cut (answer_of result) bytes.new spare.new }
{
    let sized = page.len() == 512;
    let mut room = Room::new();
    let census = survey::of(bytes, spare, s, sized, s.in_range(a), &mut room)?;
    let counted = Counted {
        records: room.records(s),
        census,
    };
    let p = plan::of(&counted, a);
    refusals::of_write(&census, p.needed)?;
    let budget = Budget::new(cut);
    let mut run = Run {
        bytes,
        spare,
        shape: s,
        budget,
    };
    carry::carry_out(&mut run, &counted.records, &p, a, page);
    Ok(run.budget.answer())
}

// Write, of a card of shape s.
pub fn write(
    bytes: &mut [u8],
    spare: &mut [u8],
    page: &[u8],
    s: Shape,
    a: usize,
    cut: usize,
) -> Answer
    ensures { WriteDone s (image_of bytes.old spare.old)
        a page.now cut result bytes.new spare.new }
{
    Answer::from(write_if_well(bytes, spare, page, s, a, cut))
}

fn block_write_if_well(
    bytes: &mut [u8],
    spare: &mut [u8],
    block: &[u8],
    s: Shape,
    l: usize,
    cut: usize,
) -> Result<Answer, Refusal>
    ensures { BlockWriteDone s (image_of bytes.old spare.old)
        l block.now cut (answer_of result) bytes.new spare.new }
{
    let sized = refusals::block_sized(s, block.len());
    let mut room = Room::new();
    let census = survey::of(bytes, spare, s, sized, l < s.logical, &mut room)?;
    refusals::of_write(&census, 1)?;
    let records = room.records(s);
    let r = renewal::by(&census, l, records.seats(l));
    let mut run = Run {
        bytes,
        spare,
        shape: s,
        budget: Budget::new(cut),
    };
    carry::renew(&mut run, &records, &r, Some(block));
    Ok(run.budget.answer())
}

// Block write, of a card of shape s.
pub fn block_write(
    bytes: &mut [u8],
    spare: &mut [u8],
    block: &[u8],
    s: Shape,
    l: usize,
    cut: usize,
) -> Answer
    ensures { BlockWriteDone s (image_of bytes.old spare.old)
        l block.now cut result bytes.new spare.new }
{
    Answer::from(block_write_if_well(bytes, spare, block, s, l, cut))
}
