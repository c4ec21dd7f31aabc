// The content of a logical page: where it is, and a copy of it.

#![tactic(auto)]

ghost use Rattle.std.specs.Prelude.{◌≡◌, ◌*◌, length};
ghost use Rattle.rules.specs.Facts.{Limits};
ghost use Rattle.rules.specs.Content.{content};
ghost use Rattle.nand.specs.Chip.{seen};
ghost use Rattle.roles.specs.Kept.{recorded_by};
ghost use Rattle.content.specs.Places.{PlaceIn, Copied};

use nand::chip::Chip;
use roles::records::Records;
use rules::shape::{DATA, Shape};

pub mod holder;

// It asks for the data image alone, and so takes no `Chip`. Copies what is at a place to the page buffer: that page of the data image, or 512 of 255.
pub fn copy_from(bytes: &[u8], page: &mut [u8], s: Shape, place: Option<usize>)
    requires { Limits s × (length bytes.now ≡ s.blocks * s.pages * 512) × (length page.old ≡ 512) × PlaceIn s place }
    ensures { Copied bytes.now place page.new }
{
    match place {
        Some(p) => {
            let at = s.page_start::<DATA>(p);
            page.copy_from_slice(&bytes[at..at + 512]);
        }
        None => page.fill(255),
    }
}

// Copies the content of logical page a to the page buffer.
pub fn fetch(chip: &Chip, records: &Records, a: usize, page: &mut [u8])
    requires { (length page.old ≡ 512) × (chip.now.shape ≡ records.now.shape) }
    ensures { page.new ≡ content records.now.shape (seen chip.now) (recorded_by records.now) a }
{
    let place = holder::of(chip.spare, records, a);
    copy_from(chip.bytes, page, records.shape, place);
}
