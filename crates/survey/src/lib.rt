// The opening of a command: refusals 1 to 5, and what the records of the card show.

#![tactic(auto)]

ghost use Rattle.rules.specs.Facts.{image_of};
ghost use Rattle.survey.specs.Opened.{Opened};

use blocks::scan;
use nand::chip::Chip;
use refusals::clash;
use roles::census;
use roles::census::Census;
use roles::records::{Counted, Room};
use rules::refusal::Refusal;
use rules::shape::Shape;

// `sized` says that what is lent has the length asked, `ranged` that the logical page or block is in range.
// Fills the room with the records and the numbers of the data blocks; a refusal leaves in it what was found before.
pub fn of(
    bytes: &[u8],
    spare: &[u8],
    s: Shape,
    sized: bool,
    ranged: bool,
    room: &mut Room,
) -> Result<Census, Refusal>
    ensures { Opened s (image_of bytes.now spare.now) sized ranged room.old room.new result }
{
    refusals::of_call(s, bytes.len(), spare.len(), sized, ranged)?;
    let chip = Chip {
        bytes,
        spare,
        shape: s,
    };
    scan::scan(&chip, &mut room.list);
    if s.short_of(census::good(s, &room.list)) {
        return Err(Refusal::TooFewGood);
    }
    room.number(s);
    let records = room.records(s);
    let counted = Counted {
        records,
        census: records.census(),
    };
    if !clash::is_well_formed(&counted) {
        return Err(Refusal::IllFormed);
    }
    Ok(counted.census)
}
