ghost use Rattle.std.specs.Prelude.{◌≡◌};
ghost use Rattle.rules.specs.Replies.{refusal_number};

// Why the card refuses, by the table of replies: its numbers 1 to 7. The lowest that applies is the answer.
#[derive(Clone, Copy, PartialEq, Eq)]
pub enum Refusal {
    // 1: shape or image length outside the limits
    OutsideLimits,
    // 2: page buffer not 512 long, table not 2 x L
    WrongLength,
    // 3: logical page out of range
    OutOfRange,
    // 4: fewer good blocks than L + K + 1
    TooFewGood,
    // 5: W1 to W7 not all true
    IllFormed,
    // 6: an obsolete block exists: run power-up
    Unrecovered,
    // 7: highest number plus new numbers needed (0, 1 or 2) above 4,294,967,294
    OutOfNumbers,
}

// Its number in the table.
impl From<Refusal> for u8 {
    ghost from_gives = { λ refusal number. number ≡ refusal_number refusal };

    fn from(refusal: Refusal) -> u8 {
        match refusal {
            Refusal::OutsideLimits => 1,
            Refusal::WrongLength => 2,
            Refusal::OutOfRange => 3,
            Refusal::TooFewGood => 4,
            Refusal::IllFormed => 5,
            Refusal::Unrecovered => 6,
            Refusal::OutOfNumbers => 7,
        }
    }
}
