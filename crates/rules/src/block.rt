ghost use Rattle.std.specs.Prelude.{◌≡◌};
ghost use Rattle.rules.specs.WellFormed.{not_used, is_good, is_free, is_ill, is_used, is_complete};

use super::kind::Kind;
use super::shape::Shape;

// A block is bad, or good; a good one is free or used. A used block that breaks one of W1 to W4 is ill.
#[derive(Clone, Copy, PartialEq, Eq)]
pub enum State {
    Bad,
    Free,
    Ill,
    Used,
}

// The record kept for each physical block. All but the state is none, 0 or false unless the block is used. The state stands beside the others, and not round them:
// the rules W5 to W7, the highest number and every pass over the records read number and logical block of each block, used or not, and would have to match at each.
#[derive(Clone, Copy, PartialEq, Eq)]
pub struct Block {
    pub state: State,
    // log or copy
    pub kind: Option<Kind>,
    // its sequence number
    pub number: u32,
    // its logical block
    pub logical: u16,
    // its pages that are programmed
    pub filled: u8,
    // whether page i has offset i, for each of them
    pub ordered: bool,
}

impl State {
    pub fn is_good(self) -> bool
        ensures { result ≡ is_good self }
    {
        self != State::Bad
    }

    pub fn is_free(self) -> bool
        ensures { result ≡ is_free self }
    {
        self == State::Free
    }

    pub fn is_ill(self) -> bool
        ensures { result ≡ is_ill self }
    {
        self == State::Ill
    }

    pub fn is_used(self) -> bool
        ensures { result ≡ is_used self }
    {
        self == State::Used
    }
}

impl Block {
    // The record of a block that is not used.
    pub fn not_used(state: State) -> Self
        ensures { result ≡ not_used state }
    {
        Self {
            state,
            kind: None,
            number: 0,
            logical: 0,
            filled: 0,
            ordered: false,
        }
    }

    // All P pages are programmed, and page i has offset i.
    pub fn is_complete(self, s: Shape) -> bool
        ensures { result ≡ is_complete s self }
    {
        self.state.is_used() & (usize::from(self.filled) == s.pages) & self.ordered
    }
}
