// Format and power-up: the blocks that go are erased, ascending.

#![tactic(auto)]

ghost use Rattle.std.specs.Prelude.{◌≡◌, ◌&&◌, not};
ghost use Rattle.rules.specs.Facts.{image_of};
ghost use Rattle.rules.specs.Replies.{answer_of};
ghost use Rattle.rules.specs.WellFormed.{is_good, is_free};
ghost use Rattle.rules.specs.Promises.{FormatDone, PowerUpDone};

use blocks::scan;
use nand::chip::Chip;
use roles::census;
use roles::records::Room;
use rules::answer::Answer;
use rules::block::{Block, State};
use rules::refusal::Refusal;
use rules::shape::{MOST, Shape};
use steps::budget::Budget;
use steps::run::Run;

// Whether a block goes at format: each good one that is not free.
fn in_use(state: State) -> bool
    ensures { result ≡ (is_good state && not (is_free state)) }
{
    state.is_good() & !state.is_free()
}

// What format answers, or why it is refused.
fn format_if_good(
    bytes: &mut [u8],
    spare: &mut [u8],
    s: Shape,
    cut: usize,
) -> Result<Answer, Refusal>
    ensures { FormatDone s (image_of bytes.old spare.old)
        cut (answer_of result) bytes.new spare.new }
{
    refusals::of_call(s, bytes.len(), spare.len(), true, true)?;
    let mut uses = [Block::not_used(State::Bad); MOST];
    let chip = Chip {
        bytes,
        spare,
        shape: s,
    };
    scan::scan_use(&chip, &mut uses);
    if s.short_of(census::good(s, &uses)) {
        return Err(Refusal::TooFewGood);
    }
    let mut run = Run {
        bytes,
        spare,
        shape: s,
        budget: Budget::new(cut),
    };
    run.erase_each(|j| in_use(uses[j].state));
    Ok(run.budget.answer())
}

// Format, of a card of shape s.
pub fn format(bytes: &mut [u8], spare: &mut [u8], s: Shape, cut: usize) -> Answer
    ensures { FormatDone s (image_of bytes.old spare.old)
        cut result bytes.new spare.new }
{
    Answer::from(format_if_good(bytes, spare, s, cut))
}

// What power-up answers, or why it is refused.
fn power_up_if_well(
    bytes: &mut [u8],
    spare: &mut [u8],
    table: &mut [u16],
    s: Shape,
    cut: usize,
) -> Result<Answer, Refusal>
    ensures { PowerUpDone s (image_of bytes.old spare.old)
        table.old cut (answer_of result) bytes.new spare.new table.new }
{
    let sized = refusals::table_sized(s, table.len());
    let mut room = Room::new();
    survey::of(bytes, spare, s, sized, true, &mut room)?;
    let records = room.records(s);
    let mut run = Run {
        bytes,
        spare,
        shape: s,
        budget: Budget::new(cut),
    };
    run.erase_each(|j| records.is_obsolete(j));
    if !run.budget.short {
        records.fill_table(table);
    }
    Ok(run.budget.answer())
}

// Power-up, of a card of shape s.
pub fn power_up(
    bytes: &mut [u8],
    spare: &mut [u8],
    table: &mut [u16],
    s: Shape,
    cut: usize,
) -> Answer
    ensures { PowerUpDone s (image_of bytes.old spare.old)
        table.old cut result bytes.new spare.new table.new }
{
    Answer::from(power_up_if_well(bytes, spare, table, s, cut))
}
