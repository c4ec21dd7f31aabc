// What one pass over the records counts and finds.
ghost use Rattle.std.specs.Prelude.{◌≡◌, ◌≤◌};
ghost use Rattle.rules.specs.Shape.{most};
ghost use Rattle.rules.specs.WellFormed.{blocks_in};
ghost use Rattle.roles.specs.Passes.{good_to};

use rules::block::Block;
use rules::shape::{MOST, Shape};

#[derive(Clone, Copy)]
pub struct Census {
    // no block is ill
    pub sound: bool,
    // live log blocks
    pub live: usize,
    // no block is obsolete
    pub recovered: bool,
    // the highest number
    pub highest: u32,
    // the lowest free block
    pub free: Option<usize>,
    // the live log block with the lowest number
    pub eldest: Option<usize>,
}

// How many blocks are good.
pub fn good(s: Shape, list: &[Block; MOST]) -> usize
    requires { s.blocks ≤ most }
    ensures { result ≡ good_to (blocks_in list.now) s.blocks }
{
    let mut n = 0;
    for j in 0..s.blocks {
        n += usize::from(list[j].state.is_good());
    }
    n
}
