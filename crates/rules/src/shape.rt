ghost use Rattle.std.specs.Prelude.{◌≡◌, ◌*◌, ◌/◌, ◌<◌, ◌≤◌, ltb};
ghost use Rattle.rules.specs.Shape.{shape_of, within_limits, page_no, in_range, good_needed};
ghost use Rattle.rules.specs.Facts.{Limits};

// The bytes of a page: of data, and spare.
pub const DATA: usize = 512;

pub const SPARE: usize = 16;

// The most blocks that a card may have; arrays of records have room for so many.
pub const MOST: usize = 64;

// The shape of a card is four numbers, within the limits or not: document 01 names this form, by value and with methods. So a function that needs the limits asks for them;
// where a lent image comes with the shape, a type says it once (`Chip`, `Run`).
#[derive(Clone, Copy)]
pub struct Shape {
    // P, pages per block
    pub pages: usize,
    // B, blocks
    pub blocks: usize,
    // L, logical blocks
    pub logical: usize,
    // K, log blocks at most
    pub logs: usize,
}

// The whole blocks of P pages in a data image, none for P 0.
fn whole_blocks(pages: usize, bytes: usize) -> usize
    ensures { result ≡ bytes / 512 / pages }
{
    (bytes / 512).checked_div(pages).unwrap_or(0)
}

impl Shape {
    // P, L and K as given with a command, for any numbers, and B by the length of the data image.
    pub fn of(pages: usize, logical: usize, logs: usize, bytes: usize) -> Self
        ensures { result ≡ shape_of pages logical logs bytes }
    {
        Self {
            pages,
            blocks: whole_blocks(pages, bytes),
            logical,
            logs,
        }
    }

    // Whether the shape and the lengths of the two images are within the limits, for any numbers.
    pub fn within(self, bytes: usize, spares: usize) -> bool
        ensures { result ≡ within_limits self bytes spares }
    {
        let pages = self.pages;
        let blocks = self.blocks;
        // Each test of the definition, in its order. With ranges, (2..=32).contains(&pages), it was tried, and the proof did not close.
        let limits = (pages >= 2)
            & (pages <= 32)
            & (blocks >= 3)
            & (blocks <= MOST)
            & (self.logical >= 1)
            & (self.logs >= 1);
        limits && (bytes == blocks * pages * 512) & (spares == blocks * pages * 16)
    }

    // Page i of block b, numbered through the chip.
    pub fn page_no(self, b: usize, i: usize) -> usize
        requires { Limits self × (b < self.blocks) × (i < self.pages) }
        ensures { (result ≡ page_no self b i) × (result < self.blocks * self.pages) }
    {
        b * self.pages + i
    }

    // The byte where block b starts, in an image of so many bytes for each page.
    pub fn block_start<const EACH: usize>(self, b: usize) -> usize
        requires { Limits self × (b < self.blocks) × (EACH ≤ 512) }
        ensures { result ≡ b * self.pages * EACH }
    {
        b * self.pages * EACH
    }

    // The byte where page p starts, in an image of so many bytes for each page.
    pub fn page_start<const EACH: usize>(self, p: usize) -> usize
        requires { Limits self × (p < self.blocks * self.pages) × (EACH ≤ 512) }
        ensures { result ≡ p * EACH }
    {
        p * EACH
    }

    // Whether a is 0 to L x P - 1, for any L and P: the product itself might not fit.
    pub fn in_range(self, a: usize) -> bool
        ensures { result ≡ in_range self a }
    {
        self.pages != 0 && a / self.pages < self.logical
    }

    // Whether so many good blocks are fewer than L + K + 1, for any L and K: the sum itself might not fit.
    pub fn short_of(self, good: usize) -> bool
        ensures { result ≡ ltb good (good_needed self) }
    {
        good < self.logical || good - self.logical <= self.logs
    }
}
