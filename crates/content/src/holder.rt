// Where the content of a logical page is: the spare bytes and the records alone tell it.
ghost use Rattle.std.specs.Prelude.{◌≡◌, ◌*◌, ◌<◌, length};
ghost use Rattle.rules.specs.Bytes.{part};
ghost use Rattle.rules.specs.Spare.{address_in};
ghost use Rattle.rules.specs.Shape.{page_no, offset_of};
ghost use Rattle.rules.specs.Facts.{Limits};
ghost use Rattle.roles.specs.Kept.{recorded_by};
ghost use Rattle.content.specs.Places.{PlaceIn, log_place, data_place, Holder};

use nand::spare::Marks;
use roles::records::Records;
use rules::shape::{SPARE, Shape};

// The offset that the spare bytes of page i of block b say.
fn offset_at(spare: &[u8], s: Shape, b: usize, i: usize) -> usize
    requires { Limits s × (length spare.now ≡ s.blocks * s.pages * 16) × (b < s.blocks) × (i < s.pages) }
    ensures { result ≡ offset_of s (address_in (part spare.now (page_no s b i * 16) 16)) }
{
    let at = s.page_start::<SPARE>(s.page_no(b, i));
    let marks = Marks {
        bytes: &spare[at..at + 16],
    };
    usize::from(marks.address()) % s.pages
}

// In the live log block of logical block l, the copy of offset o searched from the last programmed page backwards.
fn in_log(spare: &[u8], records: &Records, l: usize, o: usize) -> Option<usize>
    requires { Limits records.now.shape
        × (length spare.now ≡ records.now.shape.blocks * records.now.shape.pages * 16) }
    ensures { (result ≡ log_place records.now.shape spare.now (recorded_by records.now) l o)
        × PlaceIn records.now.shape result }
{
    let s = records.shape;
    let mut found = None;
    'scan: for b in 0..s.blocks {
        let block = records.block(b);
        if (usize::from(block.logical) == l) && records.is_live(b) {
            // a loop that yields its position by break, in a scan that is left by its label: the form that document 01 names
            let mut i = usize::from(block.filled);
            let position = loop {
                if i == 0 {
                    break None;
                }
                i -= 1;
                if offset_at(spare, s, b, i) == o {
                    break Some(i);
                }
            };
            found = position.map(|i| s.page_no(b, i));
            break 'scan;
        }
    }
    found
}

// The page at offset o in the data block of logical block l, if there is one.
fn in_data(records: &Records, l: usize, o: usize) -> Option<usize>
    requires { Limits records.now.shape × (o < records.now.shape.pages) }
    ensures { (result ≡ data_place records.now.shape (recorded_by records.now) l o)
        × PlaceIn records.now.shape result }
{
    let b = records.seats(l).data?;
    Some(records.shape.page_no(b, o))
}

// The flash page that holds logical page a, if there is one.
pub fn of(spare: &[u8], records: &Records, a: usize) -> Option<usize>
    requires { Limits records.now.shape
        × (length spare.now ≡ records.now.shape.blocks * records.now.shape.pages * 16) }
    ensures { Holder records.now.shape spare.now (recorded_by records.now) a result }
{
    let pages = records.shape.pages;
    let l = a / pages;
    let o = a % pages;
    // `or_else` was tried: of a closure that holds the borrowed records the caller's proof learns nothing
    match in_log(spare, records, l, o) {
        Some(p) => Some(p),
        None => in_data(records, l, o),
    }
}
