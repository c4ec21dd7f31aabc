// The refusals: the first of document 01's table that applies.

#![tactic(auto)]

ghost use Rattle.std.specs.Prelude.{◌≡◌, ◌*◌, ◌<◌, eqb};
ghost use Rattle.refusals.specs.Orders.{call_refusal, late_refusal, ok_unless};

use roles::census::Census;
use rules::page::NUMBER_LIMIT;
use rules::refusal::Refusal;
use rules::shape::Shape;

pub mod clash;

// 1 to 3: what the call itself shows. `sized` says that what is lent has the length asked, `ranged` that the logical page or block is in range.
pub fn of_call(
    s: Shape,
    bytes: usize,
    spares: usize,
    sized: bool,
    ranged: bool,
) -> Result<(), Refusal>
    ensures { result ≡ ok_unless (call_refusal s bytes spares sized ranged) tt }
{
    if !s.within(bytes, spares) {
        return Err(Refusal::OutsideLimits);
    }
    if !sized {
        return Err(Refusal::WrongLength);
    }
    if !ranged {
        return Err(Refusal::OutOfRange);
    }
    Ok(())
}

// 6 and 7: what a write or block write that needs so many new numbers shows.
pub fn of_write(t: &Census, needed: u32) -> Result<(), Refusal>
    ensures { result ≡ ok_unless (late_refusal t.now needed) tt }
{
    if !t.recovered {
        return Err(Refusal::Unrecovered);
    }
    if u64::from(t.highest) + u64::from(needed) > u64::from(NUMBER_LIMIT) {
        return Err(Refusal::OutOfNumbers);
    }
    Ok(())
}

// Whether size is parts x each, for any numbers: the product itself might not fit.
fn is_times(size: usize, parts: usize, each: usize) -> bool
    requires { 0 < each }
    ensures { result ≡ eqb size (parts * each) }
{
    (size / each == parts) & (size % each == 0)
}

// Whether a table has 2 x L numbers, for any L.
pub fn table_sized(s: Shape, size: usize) -> bool
    ensures { result ≡ eqb size (2 * s.logical) }
{
    is_times(size, s.logical, 2)
}

// Whether a block buffer has P x 512 bytes, for any P.
pub fn block_sized(s: Shape, size: usize) -> bool
    ensures { result ≡ eqb size (s.pages * 512) }
{
    is_times(size, s.pages, 512)
}
