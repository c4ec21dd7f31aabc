// The records of a card, read in one scan.
ghost use Rattle.std.specs.Prelude.{◌≡◌, ◌≤◌, ◌<◌, ℕ, length};
ghost use Rattle.rules.specs.Shape.{most};
ghost use Rattle.rules.specs.WellFormed.{Blocks, is_marked, is_bad, pages_of, block_at, blocks_of, blocks_in};
ghost use Rattle.nand.specs.Chip.{seen};
ghost use Rattle.nand.specs.Entries.{OfTable};
ghost use Rattle.blocks.specs.Leading.{blank_from, Begins, InOrder, Leads};
ghost use Rattle.blocks.specs.Scanned.{Reads, of_card, use_at, uses_of};

use super::record::{self, First};
use nand::chip::Chip;
use rules::block::{Block, State};
use rules::shape::MOST;

// Whether page i of block b carries the mark of a bad block.
fn is_marked(chip: &Chip, b: usize, i: usize) -> bool
    requires { (b < chip.now.shape.blocks) × (i < chip.now.shape.pages) }
    ensures { result ≡ is_marked chip.now.shape (seen chip.now) b i }
{
    chip.marks(chip.shape.page_no(b, i)).is_bad_mark()
}

// Whether block b is bad: the one place where the mark is looked for.
fn is_bad(chip: &Chip, b: usize) -> bool
    requires { b < chip.now.shape.blocks }
    ensures { result ≡ is_bad chip.now.shape (seen chip.now) b }
{
    let first = is_marked(chip, b, 0);
    let second = is_marked(chip, b, 1);
    first | second
}

// Whether all pages of block b from page `from` on are erased.
fn is_blank(chip: &Chip, b: usize, from: usize) -> bool
    requires { (b < chip.now.shape.blocks) × (from ≤ chip.now.shape.pages) }
    ensures { result ≡ blank_from chip.now.shape (pages_of chip.now.shape (seen chip.now) b) from }
{
    let pages = chip.shape.pages;
    for i in from..pages {
        if !chip.erased_at(chip.shape.page_no(b, i)) {
            return false;
        }
    }
    true
}

// What the first page of block b gives.
fn begin(chip: &Chip, b: usize) -> Option<First>
    requires { b < chip.now.shape.blocks }
    ensures { Begins chip.now.shape (pages_of chip.now.shape (seen chip.now) b) result }
{
    record::start(chip.shape, chip.page_at(chip.shape.page_no(b, 0)))
}

// How many pages of block b come first in order, with its first page, which gives x.
fn in_order(chip: &Chip, b: usize, x: First) -> usize
    requires { (b < chip.now.shape.blocks) × OfTable x.number }
    ensures { InOrder chip.now.shape (seen chip.now) b x result }
{
    let s = chip.shape;
    if !x.ordered {
        return 1;
    }
    for i in 1..s.pages {
        if !record::is_next(&chip.marks(s.page_no(b, i)), s, x, i) {
            return i;
        }
    }
    s.pages
}

// The record of the pages of block b that come first and go on from each other, as if the others were erased.
fn leading(chip: &Chip, b: usize) -> Block
    requires { b < chip.now.shape.blocks }
    ensures { Leads chip.now.shape (pages_of chip.now.shape (seen chip.now) b) result }
{
    let s = chip.shape;
    let Some(x) = begin(chip, b) else {
        return Block::not_used(State::Free);
    };
    let mut ordered = x.ordered;
    for i in in_order(chip, b, x)..s.pages {
        let marks = chip.marks(s.page_no(b, i));
        if !record::goes_on(&marks, s, x, i) {
            return record::with_pages(x, i, ordered);
        }
        ordered &= record::in_place(&marks, s, x.logical, i);
    }
    record::with_pages(x, s.pages, ordered)
}

// The record of block b: that of its leading pages, if no page comes after them.
fn read_block(chip: &Chip, b: usize) -> Block
    requires { b < chip.now.shape.blocks }
    ensures { result ≡ block_at chip.now.shape (seen chip.now) b }
{
    if is_bad(chip, b) {
        return Block::not_used(State::Bad);
    }
    let x = leading(chip, b);
    if is_blank(chip, b, usize::from(x.filled)) {
        return x;
    }
    Block::not_used(State::Ill)
}

// Whether block b is bad, free or in use, by the first page that is not erased.
fn use_of(chip: &Chip, b: usize) -> State
    requires { b < chip.now.shape.blocks }
    ensures { result ≡ use_at chip.now.shape (seen chip.now) b }
{
    if is_bad(chip, b) {
        return State::Bad;
    }
    if is_blank(chip, b, 0) {
        return State::Free;
    }
    State::Ill
}

// What is read of each block, into the list that is lent; what is no block of the card counts as bad.
fn read_each<F: Fn(usize) -> Block>(chip: &Chip, list: &mut [Block; MOST], read: F)
    requires { (b : ℕ) → b < chip.now.shape.blocks → F.pre read b }
    ensures { (c : Blocks) → Reads (F.post read) chip.now.shape.blocks c
        → blocks_in list.new ≡ of_card chip.now.shape.blocks c }
{
    list.fill(Block::not_used(State::Bad));
    for b in 0..chip.shape.blocks {
        list[b] = read(b);
    }
}

// The record of each block. The type gives the length; with it one array is possible.
pub fn scan(chip: &Chip, list: &mut [Block; MOST])
    ensures long { length list.new ≡ most }
    ensures is { blocks_in list.new ≡ blocks_of chip.now.shape (seen chip.now) }
{
    read_each(chip, list, |b| read_block(chip, b));
}

// What format asks of each block.
pub fn scan_use(chip: &Chip, list: &mut [Block; MOST])
    ensures long { length list.new ≡ most }
    ensures is { blocks_in list.new ≡ uses_of chip.now.shape (seen chip.now) }
{
    read_each(chip, list, |b| Block::not_used(use_of(chip, b)));
}
