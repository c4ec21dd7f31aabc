// Steps done on the lent images, each counted against the cut number.
ghost use Rattle.std.specs.Prelude.{◌≡◌, ◌+◌, ◌*◌, ◌<◌, ◌≤◌, [], ◌∷◌, ℕ, Bool, List, length, IfSome};
ghost use Rattle.rules.specs.Bytes.{replaced};
ghost use Rattle.rules.specs.Content.{bytes_at};
ghost use Rattle.rules.specs.Facts.{image_of, Within};
ghost use Rattle.rules.specs.Spare.{kind_byte};
ghost use Rattle.rules.specs.Steps.{program, erase, entry_step};
ghost use Rattle.steps.specs.Runs.{Sane};

use super::budget::Budget;
use nand::chip::Chip;
use nand::spare::spare_bytes;
use rules::kind::Kind;
use rules::shape::{DATA, SPARE, Shape};

// The lent images while steps are done, and what is left of the cut number.
#[derive(Drop)]
pub struct Run<'a> {
    pub bytes: &'a mut [u8],
    pub spare: &'a mut [u8],
    pub shape: Shape,
    pub budget: Budget,
    ghost fits: { Within shape (length bytes.now) (length spare.now) },
    ghost sane: { Sane budget },
}

// Page p gets the data bytes of the page at a place, or with none 512 of 255, through a writable part of exactly its own bytes: the others, before and after it, are read.
fn put_page(bytes: &mut [u8], p: usize, place: Option<usize>)
    requires { (p * 512 + 512 ≤ length bytes.old) × IfSome place (λ q. q * 512 + 512 ≤ length bytes.old) }
    ensures { (spare : List ℕ) → bytes.new ≡ replaced bytes.old (p * 512) 512 (bytes_at (image_of bytes.old spare) place) }
{
    let at = p * 512;
    let (before, rest) = bytes.split_at_mut(at);
    let (own, after) = rest.split_at_mut(512);
    match place {
        Some(q) => {
            if q < p {
                let from = q * 512;
                own.copy_from_slice(&before[from..from + 512]);
            } else if p < q {
                let from = q * 512 - at - 512;
                own.copy_from_slice(&after[from..from + 512]);
            }
        }
        None => own.fill(255),
    }
}

impl<'a> Run<'a> {
    ghost use Rattle.steps.specs.Doing.{image_in, Same, Stepped, Does, Tells, erase_any, erases_to};

    // What the images are by now.
    pub fn chip(&self) -> Chip<'_>
        ensures bytes_are { result.bytes.now ≡ self.now.bytes.now }
        ensures spare_are { result.spare.now ≡ self.now.spare.now }
        ensures shape_is { result.shape ≡ self.now.shape }
    {
        Chip {
            bytes: self.bytes,
            spare: self.spare,
            shape: self.shape,
        }
    }

    // A step programs one page or erases one block, whole, through a writable part of exactly its own bytes in each image.

    // Page p gets 512 data bytes and 16 spare bytes.
    fn program(&mut self, p: usize, page: &[u8], marks: &[u8; 16])
        requires { (p < self.old.shape.blocks * self.old.shape.pages) × (length page.now ≡ 512) }
        ensures { Stepped (program p page.now marks.now) self.old self.new }
    {
        let at = self.shape.page_start::<DATA>(p);
        self.bytes[at..at + 512].copy_from_slice(page);
        let from = self.shape.page_start::<SPARE>(p);
        self.spare[from..from + 16].copy_from_slice(marks);
    }

    // The same with the data bytes of the page at a place, or with none 512 of 255, and no buffer between.
    fn program_from(&mut self, p: usize, place: Option<usize>, marks: &[u8; 16])
        requires { (p < self.old.shape.blocks * self.old.shape.pages)
            × IfSome place (λ q. q < self.old.shape.blocks * self.old.shape.pages) }
        ensures { Stepped (program p (bytes_at (image_in self.old) place) marks.now) self.old self.new }
    {
        put_page(self.bytes, p, place);
        let from = self.shape.page_start::<SPARE>(p);
        self.spare[from..from + 16].copy_from_slice(marks);
    }

    // All bytes of block b become 255.
    fn erase_block(&mut self, b: usize)
        requires { b < self.old.shape.blocks }
        ensures { Stepped (erase b) self.old self.new }
    {
        let pages = self.shape.pages;
        let at = self.shape.block_start::<DATA>(b);
        let long = pages * 512;
        self.bytes[at..at + long].fill(255);
        let from = self.shape.block_start::<SPARE>(b);
        let short = pages * 16;
        self.spare[from..from + short].fill(255);
    }

    // The test of the cut number stands here and in `erase`: a function of both with the step as a closure would lend it the run that it holds.

    // Makes page p an entry: number n, its kind, logical page a, and the bytes of the page buffer.
    pub fn program_entry(&mut self, p: usize, n: u32, kind: Kind, a: usize, page: &[u8])
        requires { (p < self.old.shape.blocks * self.old.shape.pages) × (length page.now ≡ 512) }
        ensures { Does (λ _. entry_step p n (kind_byte kind) a page.now ∷ []) self.old self.new }
    {
        if self.budget.is_spent() {
            self.budget = self.budget.stop();
            return;
        }
        self.program(p, page, &spare_bytes(n, u8::from(kind), a));
        self.budget = self.budget.programmed();
    }

    // The same with the bytes of the page at a place, or with none 512 of 255.
    pub fn copy_entry(&mut self, p: usize, n: u32, kind: Kind, a: usize, place: Option<usize>)
        requires { (p < self.old.shape.blocks * self.old.shape.pages)
            × IfSome place (λ q. q < self.old.shape.blocks * self.old.shape.pages) }
        ensures { Does (λ im. entry_step p n (kind_byte kind) a (bytes_at im place) ∷ []) self.old self.new }
    {
        if self.budget.is_spent() {
            self.budget = self.budget.stop();
            return;
        }
        self.program_from(p, place, &spare_bytes(n, u8::from(kind), a));
        self.budget = self.budget.programmed();
    }

    // Erases block b.
    pub fn erase(&mut self, b: usize)
        requires { b < self.old.shape.blocks }
        ensures { Does (λ _. erase b ∷ []) self.old self.new }
    {
        if self.budget.is_spent() {
            self.budget = self.budget.stop();
            return;
        }
        self.erase_block(b);
        self.budget = self.budget.erased();
    }

    // Erases a block, if there is one.
    pub fn erase_any(&mut self, found: Option<usize>)
        requires { IfSome found (λ b. b < self.old.shape.blocks) }
        ensures { Does (λ _. erase_any found) self.old self.new }
    {
        if let Some(b) = found {
            self.erase(b);
        }
    }

    // Erases each block that goes, ascending.
    pub fn erase_each<F: Fn(usize) -> bool>(&mut self, goes: F)
        requires { (j : ℕ) → j < self.old.shape.blocks → F.pre goes j }
        ensures same { Same self.old self.new }
        ensures erased { (p : ℕ → Bool) → Tells (F.post goes) self.old.shape.blocks p
            → Does (λ _. erases_to p self.old.shape.blocks) self.old self.new }
    {
        for b in 0..self.shape.blocks {
            if goes(b) {
                self.erase(b);
            }
        }
    }
}
