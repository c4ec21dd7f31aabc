// The card: format, power-up, read, write, block write and page lending, over a lent image. Each takes any slices and any numbers, one by one as C gives them.

#![tactic(auto)]

ghost use Rattle.rules.specs.Facts.{image_of};
ghost use Rattle.rules.specs.Promises.{Given, FormatDone, PowerUpDone, ReadDone, WriteDone, BlockWriteDone, LentAt, Lent};

use rules::answer::Answer;
use rules::shape::Shape;

// Erases each good block that is not free.
pub fn format(
    bytes: &mut [u8],
    spare: &mut [u8],
    pages: usize,
    logical: usize,
    logs: usize,
    cut: usize,
) -> Answer
    ensures { Given pages logical logs (image_of bytes.old spare.old)
        (λ s im. FormatDone s im cut result bytes.new spare.new) }
{
    let s = Shape::of(pages, logical, logs, bytes.len());
    sweep::format(bytes, spare, s, cut)
}

// Erases each obsolete block, and fills the table: for each logical block its data block and its live log block.
pub fn power_up(
    bytes: &mut [u8],
    spare: &mut [u8],
    table: &mut [u16],
    pages: usize,
    logical: usize,
    logs: usize,
    cut: usize,
) -> Answer
    ensures { Given pages logical logs (image_of bytes.old spare.old)
        (λ s im. PowerUpDone s im table.old cut result bytes.new spare.new table.new) }
{
    let s = Shape::of(pages, logical, logs, bytes.len());
    sweep::power_up(bytes, spare, table, s, cut)
}

// Copies logical page `number` to the page buffer.
pub fn read(
    bytes: &[u8],
    spare: &[u8],
    page: &mut [u8],
    pages: usize,
    logical: usize,
    logs: usize,
    number: usize,
) -> Answer
    ensures { Given pages logical logs (image_of bytes.now spare.now)
        (λ s im. ReadDone s im page.old number result page.new) }
{
    let s = Shape::of(pages, logical, logs, bytes.len());
    reading::read(bytes, spare, page, s, number)
}

// Writes the page buffer to logical page `number`.
pub fn write(
    bytes: &mut [u8],
    spare: &mut [u8],
    page: &[u8],
    pages: usize,
    logical: usize,
    logs: usize,
    number: usize,
    cut: usize,
) -> Answer
    ensures { Given pages logical logs (image_of bytes.old spare.old)
        (λ s im. WriteDone s im number page.now cut result bytes.new spare.new) }
{
    let s = Shape::of(pages, logical, logs, bytes.len());
    writing::write(bytes, spare, page, s, number, cut)
}

// Writes the block buffer to logical block `number`, all or none: its P parts are the pages.
pub fn block_write(
    bytes: &mut [u8],
    spare: &mut [u8],
    block: &[u8],
    pages: usize,
    logical: usize,
    logs: usize,
    number: usize,
    cut: usize,
) -> Answer
    ensures { Given pages logical logs (image_of bytes.old spare.old)
        (λ s im. BlockWriteDone s im number block.now cut result bytes.new spare.new) }
{
    let s = Shape::of(pages, logical, logs, bytes.len());
    writing::block_write(bytes, spare, block, s, number, cut)
}

// The flash page that `lend` lends, if there is one.
pub fn lend_at(
    bytes: &[u8],
    spare: &[u8],
    pages: usize,
    logical: usize,
    logs: usize,
    number: usize,
) -> Option<usize>
    ensures { Given pages logical logs (image_of bytes.now spare.now)
        (λ s im. LentAt s im number result) }
{
    let s = Shape::of(pages, logical, logs, bytes.len());
    reading::place(bytes, spare, s, number)
}

// Lends back that page's own 512 bytes, or an empty part.
pub fn lend<'a>(
    bytes: &'a [u8],
    spare: &[u8],
    pages: usize,
    logical: usize,
    logs: usize,
    number: usize,
) -> &'a [u8]
    ensures { Given pages logical logs (image_of bytes.now spare.now)
        (λ s im. Lent s im number result.now) }
{
    let s = Shape::of(pages, logical, logs, bytes.len());
    reading::lend(bytes, spare, s, number)
}
