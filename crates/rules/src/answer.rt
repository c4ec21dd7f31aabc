ghost use Rattle.std.specs.Prelude.{◌≡◌};
ghost use Rattle.rules.specs.Replies.{number, programs_of, erases_of, answer_of};

use super::refusal::Refusal;
use std::fmt;

// What the card replies. A cut is no error beside the refusal: the steps done are done, and counted as in the first case.
#[derive(Clone, Copy)]
pub enum Answer {
    // all done
    Done { programs: usize, erases: usize },
    // refused, with nothing changed
    Refused(Refusal),
    // cut short: the steps done are the first of the list
    Cut { programs: usize, erases: usize },
}

impl Answer {
    pub fn number(self) -> u8
        ensures { result ≡ number self }
    {
        match self {
            Answer::Done { .. } => 0,
            Answer::Refused(refusal) => u8::from(refusal),
            Answer::Cut { .. } => 8,
        }
    }

    pub fn programs(self) -> usize
        ensures { result ≡ programs_of self }
    {
        match self {
            Answer::Done { programs, .. } | Answer::Cut { programs, .. } => programs,
            Answer::Refused(_) => 0,
        }
    }

    pub fn erases(self) -> usize
        ensures { result ≡ erases_of self }
    {
        match self {
            Answer::Done { erases, .. } | Answer::Cut { erases, .. } => erases,
            Answer::Refused(_) => 0,
        }
    }
}

// Its number, its programs and its erases.
impl fmt::Display for Answer {
    fn fmt<W: fmt::Write>(&self, f: &mut fmt::Formatter<W>) -> fmt::Result {
        write!(f, "{} {} {}", self.number(), self.programs(), self.erases())
    }
}

// A command that is refused answers so.
impl From<Result<Answer, Refusal>> for Answer {
    ghost from_gives = { λ tried answer. answer ≡ answer_of tried };

    fn from(tried: Result<Answer, Refusal>) -> Answer {
        match tried {
            Ok(answer) => answer,
            Err(refusal) => Answer::Refused(refusal),
        }
    }
}
