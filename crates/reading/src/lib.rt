// Read and lend: the content of a logical page, copied or lent.

#![tactic(auto)]

ghost use Rattle.rules.specs.Facts.{image_of};
ghost use Rattle.rules.specs.Replies.{answer_of};
ghost use Rattle.rules.specs.Promises.{ReadDone, LentAt, Lent};

use content::holder;
use nand::chip::Chip;
use roles::records::Room;
use rules::answer::Answer;
use rules::refusal::Refusal;
use rules::shape::{DATA, Shape};

fn read_if_well(
    bytes: &[u8],
    spare: &[u8],
    page: &mut [u8],
    s: Shape,
    a: usize,
) -> Result<Answer, Refusal>
    ensures { ReadDone s (image_of bytes.now spare.now)
        page.old a (answer_of result) page.new }
{
    let sized = page.len() == 512;
    let mut room = Room::new();
    survey::of(bytes, spare, s, sized, s.in_range(a), &mut room)?;
    let chip = Chip {
        bytes,
        spare,
        shape: s,
    };
    content::fetch(&chip, &room.records(s), a, page);
    Ok(Answer::Done {
        programs: 0,
        erases: 0,
    })
}

// Read, of a card of shape s.
pub fn read(bytes: &[u8], spare: &[u8], page: &mut [u8], s: Shape, a: usize) -> Answer
    ensures { ReadDone s (image_of bytes.now spare.now)
        page.old a result page.new }
{
    Answer::from(read_if_well(bytes, spare, page, s, a))
}

// The page to lend, of a card of shape s.
pub fn place(bytes: &[u8], spare: &[u8], s: Shape, a: usize) -> Option<usize>
    ensures { LentAt s (image_of bytes.now spare.now) a result }
{
    let mut room = Room::new();
    match survey::of(bytes, spare, s, true, s.in_range(a), &mut room) {
        Ok(_) => holder::of(spare, &room.records(s), a),
        Err(_) => None,
    }
}

// Lending, of a card of shape s. The part is of the caller's own slice, and outlives any `Chip`.
pub fn lend<'a>(bytes: &'a [u8], spare: &[u8], s: Shape, a: usize) -> &'a [u8]
    ensures { Lent s (image_of bytes.now spare.now) a result.now }
{
    match place(bytes, spare, s, a) {
        Some(p) => {
            let at = s.page_start::<DATA>(p);
            &bytes[at..at + DATA]
        }
        None => &bytes[0..0],
    }
}
