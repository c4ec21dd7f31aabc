// The commands for C and C++, as include/hamutsigra.h declares them: each slice is a pointer and a length there.

#![tactic(auto)]

ghost use Rattle.std.specs.Prelude.{◌≡◌};
ghost use Rattle.rules.specs.Facts.{image_of};
ghost use Rattle.rules.specs.Promises.{Given, FormatDone, PowerUpDone, ReadDone, WriteDone, BlockWriteDone};
ghost use Rattle.hamutsigra.specs.Results.{packed, InBits, Result, LentFrom};

use rules::answer::Answer;
use rules::shape::{DATA, Shape};

// An answer as one number.
fn pack(a: Answer) -> u64
    requires { InBits a }
    ensures { result ≡ packed a }
{
    u64::from(a.number()) + a.programs() as u64 * 256 + a.erases() as u64 * 4294967296
}

// Erases each good block that is not free.
#[unsafe(no_mangle)]
pub extern "C" fn hamutsigra_format(
    bytes: &mut [u8],
    spare: &mut [u8],
    pages: usize,
    logical: usize,
    logs: usize,
    cut: usize,
) -> u64
    ensures { Given pages logical logs (image_of bytes.old spare.old)
        (λ s im. Result (λ a. FormatDone s im cut a bytes.new spare.new) result) }
{
    pack(card::format(bytes, spare, pages, logical, logs, cut))
}

// Erases each obsolete block, and fills the table: for each logical block its data block and its live log block.
#[unsafe(no_mangle)]
pub extern "C" fn hamutsigra_power_up(
    bytes: &mut [u8],
    spare: &mut [u8],
    table: &mut [u16],
    pages: usize,
    logical: usize,
    logs: usize,
    cut: usize,
) -> u64
    ensures { Given pages logical logs (image_of bytes.old spare.old)
        (λ s im. Result (λ a. PowerUpDone s im table.old cut a bytes.new spare.new table.new) result) }
{
    pack(card::power_up(bytes, spare, table, pages, logical, logs, cut))
}

// Copies logical page `number` to the page buffer.
#[unsafe(no_mangle)]
pub extern "C" fn hamutsigra_read(
    bytes: &[u8],
    spare: &[u8],
    page: &mut [u8],
    pages: usize,
    logical: usize,
    logs: usize,
    number: usize,
) -> u64
    ensures { Given pages logical logs (image_of bytes.now spare.now)
        (λ s im. Result (λ a. ReadDone s im page.old number a page.new) result) }
{
    pack(card::read(bytes, spare, page, pages, logical, logs, number))
}

// Writes the page buffer to logical page `number`.
#[unsafe(no_mangle)]
pub extern "C" fn hamutsigra_write(
    bytes: &mut [u8],
    spare: &mut [u8],
    page: &[u8],
    pages: usize,
    logical: usize,
    logs: usize,
    number: usize,
    cut: usize,
) -> u64
    ensures { Given pages logical logs (image_of bytes.old spare.old)
        (λ s im. Result (λ a. WriteDone s im number page.now cut a bytes.new spare.new) result) }
{
    pack(card::write(bytes, spare, page, pages, logical, logs, number, cut))
}

// Writes the block buffer to logical block `number`, all or none: its P parts are the pages.
#[unsafe(no_mangle)]
pub extern "C" fn hamutsigra_block_write(
    bytes: &mut [u8],
    spare: &mut [u8],
    block: &[u8],
    pages: usize,
    logical: usize,
    logs: usize,
    number: usize,
    cut: usize,
) -> u64
    ensures { Given pages logical logs (image_of bytes.old spare.old)
        (λ s im. Result (λ a. BlockWriteDone s im number block.now cut a bytes.new spare.new) result) }
{
    pack(card::block_write(bytes, spare, block, pages, logical, logs, number, cut))
}

// Says where logical page `number` lies: the byte of the data image where its 512 bytes start, or 2^64 - 1.
#[unsafe(no_mangle)]
pub extern "C" fn hamutsigra_lend(
    bytes: &[u8],
    spare: &[u8],
    pages: usize,
    logical: usize,
    logs: usize,
    number: usize,
) -> u64
    ensures { Given pages logical logs (image_of bytes.now spare.now)
        (λ s im. LentFrom s im number result) }
{
    let s = Shape::of(pages, logical, logs, bytes.len());
    match card::lend_at(bytes, spare, pages, logical, logs, number) {
        Some(p) => s.page_start::<DATA>(p) as u64,
        None => u64::MAX,
    }
}
