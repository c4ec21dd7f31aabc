// A chip as it is lent to read: its image and its shape. A page is a middle part of each half of the image, one page long.
ghost use Rattle.std.specs.Prelude.{◌≡◌, length};
ghost use Rattle.rules.specs.Facts.{Within};

use super::page::{page_erased, read_page};
use super::spare::Marks;
use rules::page::Page;
use rules::shape::{DATA, SPARE, Shape};

#[derive(Clone, Copy)]
pub struct Chip<'a> {
    pub bytes: &'a [u8],
    pub spare: &'a [u8],
    pub shape: Shape,
    ghost fits: { Within shape (length bytes.now) (length spare.now) },
}

impl<'a> Chip<'a> {
    ghost use Rattle.std.specs.Prelude.{◌*◌, ◌<◌};
    ghost use Rattle.rules.specs.Page.{page_at, page_bytes, page_spare, is_erased};
    ghost use Rattle.nand.specs.Chip.{seen};

    // The 512 data bytes of page p.
    pub fn page(&self, p: usize) -> &'a [u8]
        requires { p < self.now.shape.blocks * self.now.shape.pages }
        ensures bytes { result.now ≡ page_bytes (seen self.now) p }
        ensures long { length result.now ≡ 512 }
    {
        let at = self.shape.page_start::<DATA>(p);
        &self.bytes[at..at + DATA]
    }

    // Its sixteen spare bytes.
    pub fn marks(&self, p: usize) -> Marks<'a>
        requires { p < self.now.shape.blocks * self.now.shape.pages }
        ensures { result.bytes.now ≡ page_spare (seen self.now) p }
    {
        let at = self.shape.page_start::<SPARE>(p);
        Marks {
            bytes: &self.spare[at..at + 16],
        }
    }

    // What page p says.
    pub fn page_at(&self, p: usize) -> Page
        requires { p < self.now.shape.blocks * self.now.shape.pages }
        ensures { result ≡ page_at (seen self.now) p }
    {
        read_page(self.page(p), &self.marks(p))
    }

    // Whether page p is erased.
    pub fn erased_at(&self, p: usize) -> bool
        requires { p < self.now.shape.blocks * self.now.shape.pages }
        ensures { result ≡ is_erased (page_at (seen self.now) p) }
    {
        page_erased(self.page(p), &self.marks(p))
    }
}
