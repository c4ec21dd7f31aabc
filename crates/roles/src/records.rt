// The records of a card, and the roles that they give its blocks.
ghost use Rattle.std.specs.Prelude.{◌≡◌, ◌≤◌, cond};
ghost use Rattle.rules.specs.Below.{none, or_none};
ghost use Rattle.rules.specs.WellFormed.{blocks_in};
ghost use Rattle.roles.specs.Passes.{Numbers, IsCensus};

use super::census::Census;
use super::role;
use super::seats::Seats;
use rules::block::{Block, State};
use rules::shape::{MOST, Shape};

// Room for the records of a card and the number of each logical block's data block, 0 for none.
// It lies with the command, whose stack holds it once.
#[derive(Drop)]
pub struct Room {
    pub list: [Block; MOST],
    pub numbers: [u32; MOST],
}

impl Room {
    ghost use Rattle.std.specs.Prelude.{replicate};
    ghost use Rattle.rules.specs.declared.block.State.TheVariants.{Bad};
    ghost use Rattle.rules.specs.Shape.{most};
    ghost use Rattle.rules.specs.WellFormed.{not_used};
    ghost use Rattle.roles.specs.Passes.{Recorded, numbers_of};
    ghost use Rattle.roles.specs.Kept.{recorded_by};

    pub fn new() -> Self
        ensures list { result.list ≡ replicate most (not_used Bad) }
        ensures numbers { result.numbers ≡ replicate most 0 }
    {
        Self {
            list: [Block::not_used(State::Bad); MOST],
            numbers: [0; MOST],
        }
    }

    // The numbers, from the records in the list.
    pub fn number(&mut self, shape: Shape)
        requires { Recorded shape (blocks_in self.old.list) }
        ensures list { self.new.list ≡ self.old.list }
        ensures numbers { self.new.numbers ≡ numbers_of shape (blocks_in self.old.list) }
    {
        let Self { list, numbers } = self;
        *numbers = [0; MOST];
        for j in 0..shape.blocks {
            let x = list[j];
            if x.is_complete(shape) {
                let l = usize::from(x.logical);
                numbers[l] = u32::max(numbers[l], x.number);
            }
        }
    }

    // The records, once the numbers are theirs.
    pub fn records(&self, shape: Shape) -> Records<'_>
        requires { Numbers shape (blocks_in self.now.list) self.now.numbers }
        ensures shape_is { result.shape ≡ shape }
        ensures list_is { recorded_by result ≡ blocks_in self.now.list }
    {
        Records {
            shape,
            list: &self.list,
            numbers: &self.numbers,
        }
    }
}

#[derive(Clone, Copy)]
pub struct Records<'a> {
    pub shape: Shape,
    list: &'a [Block; MOST],
    // the number of each logical block's data block, 0 for none
    numbers: &'a [u32; MOST],
    pub ghost numbers_are: { Numbers shape (blocks_in list.now) numbers.now },
}

// The records, and what one pass over them counts and finds.
#[derive(Clone, Copy)]
pub struct Counted<'a> {
    pub records: Records<'a>,
    pub census: Census,
    pub ghost counted: { IsCensus records.shape (blocks_in records.list.now) census },
}

// Stands for no block in power-up's table, as document 01 has it and C is given it.
const NO_BLOCK: u16 = 65535;

// Block j becomes the entry, if it passes and no block is there.
fn enter(entry: &mut u16, passes: bool, j: usize)
    requires { j ≤ none }
    ensures { entry.new ≡ or_none entry.old (cond passes j none) }
{
    if passes & (*entry == NO_BLOCK) {
        *entry = j as u16;
    }
}

impl<'a> Records<'a> {
    ghost use Rattle.std.specs.Prelude.{◌*◌, MatchOption, IsTrue, eqb, ltb, length};
    ghost use Rattle.rules.specs.WellFormed.{data_number, is_data, is_live, is_obsolete};
    ghost use Rattle.rules.specs.Replies.{table_of};
    ghost use Rattle.roles.specs.Passes.{census, seats};
    ghost use Rattle.roles.specs.Kept.{recorded_by};

    // The record of block b; what is no block counts as bad.
    pub fn block(&self, b: usize) -> Block
        ensures { result ≡ recorded_by self.now b }
    {
        let list = self.list;
        list.get(b).copied().unwrap_or(Block::not_used(State::Bad))
    }

    // The number of block j's logical block's data block, 0 for none.
    fn data_number(&self, j: usize) -> u32
        ensures { result ≡ data_number self.now.shape (recorded_by self.now) (recorded_by self.now j).logical }
    {
        let x = self.block(j);
        self.numbers[usize::from(x.logical)]
    }

    #[tactic(auto, unfolding(rules::specs::WellFormed::is_data))]
    pub fn is_data(&self, j: usize) -> bool
        ensures { result ≡ is_data self.now.shape (recorded_by self.now) j }
    {
        role::is_data(self.shape, self.block(j), self.data_number(j))
    }

    #[tactic(auto, unfolding(rules::specs::WellFormed::is_live))]
    pub fn is_live(&self, j: usize) -> bool
        ensures { result ≡ is_live self.now.shape (recorded_by self.now) j }
    {
        role::is_live(self.shape, self.block(j), self.data_number(j))
    }

    #[tactic(auto, unfolding(rules::specs::WellFormed::is_obsolete, rules::specs::WellFormed::is_data, rules::specs::WellFormed::is_live))]
    pub fn is_obsolete(&self, j: usize) -> bool
        ensures { result ≡ is_obsolete self.now.shape (recorded_by self.now) j }
    {
        role::is_obsolete(self.shape, self.block(j), self.data_number(j))
    }

    // Whether a number is below that of a block, if there is one.
    fn is_below(&self, number: u32, block: Option<usize>) -> bool
        ensures { MatchOption block (IsTrue result) (λ b. result ≡ ltb number (recorded_by self.now b).number) }
    {
        match block {
            Some(b) => number < self.block(b).number,
            None => true,
        }
    }

    // What one pass over the records counts and finds.
    pub fn census(&self) -> Census
        ensures { result ≡ census self.now.shape (recorded_by self.now) }
    {
        let mut census = Census {
            sound: true,
            live: 0,
            recovered: true,
            highest: 0,
            free: None,
            eldest: None,
        };
        for j in 0..self.shape.blocks {
            let x = self.block(j);
            census.sound &= !x.state.is_ill();
            census.recovered &= !self.is_obsolete(j);
            census.highest = u32::max(census.highest, x.number);
            census.free = census.free.or(x.state.is_free().then_some(j));
            if self.is_live(j) {
                census.live += 1;
                if self.is_below(x.number, census.eldest) {
                    census.eldest = Some(j);
                }
            }
        }
        census
    }

    // Whether the record of block j names logical block l.
    fn is_of(&self, j: usize, l: usize) -> bool
        ensures { result ≡ eqb (recorded_by self.now j).logical l }
    {
        usize::from(self.block(j).logical) == l
    }

    // The blocks of logical block l. Most blocks are of another one, so that is asked first.
    pub fn seats(&self, l: usize) -> Seats
        ensures { result ≡ seats self.now.shape (recorded_by self.now) l }
    {
        let blocks = self.shape.blocks;
        Seats {
            data: (0..blocks).find(|&j| self.is_of(j, l) && self.is_data(j)),
            log: (0..blocks).find(|&j| self.is_of(j, l) && self.is_live(j)),
        }
    }

    // For each logical block its data block, then its live log block.
    pub fn fill_table(&self, table: &mut [u16])
        requires { length table.old ≡ 2 * self.now.shape.logical }
        ensures { table.new ≡ table_of self.now.shape (recorded_by self.now) self.now.shape.logical }
    {
        table.fill(NO_BLOCK);
        for j in 0..self.shape.blocks {
            let l = usize::from(self.block(j).logical);
            if l < self.shape.logical {
                enter(&mut table[2 * l], self.is_data(j), j);
                enter(&mut table[2 * l + 1], self.is_live(j), j);
            }
        }
    }
}
