// What is left of the cut number.
ghost use Rattle.std.specs.Prelude.{◌≡◌, [], ◌≤◌, eqb};
ghost use Rattle.rules.specs.Steps.{program, erase};
ghost use Rattle.steps.specs.Runs.{Sane, started, stopped, spent};
ghost use Rattle.steps.specs.Answers.{finished};

use rules::answer::Answer;

// What is left of the cut number, whether a step was left undone, and the steps done. That no sum of it wraps (`Sane`) is a clause here and a ghost field of `Run`:
// the definitions of steps under a budget build budgets, and a ghost field here would have each of them carry a proof.
#[derive(Clone, Copy)]
pub struct Budget {
    left: usize,
    pub short: bool,
    programs: usize,
    erases: usize,
}

impl Budget {
    pub fn new(cut: usize) -> Self
        ensures { (result ≡ started cut) × Sane result }
    {
        Self {
            left: cut,
            short: false,
            programs: 0,
            erases: 0,
        }
    }

    // Whether the cut number is used up.
    pub(crate) fn is_spent(self) -> bool
        ensures { result ≡ eqb self.left 0 }
    {
        self.left == 0
    }

    pub(crate) fn stop(self) -> Self
        requires { Sane self }
        ensures { (result ≡ stopped self) × Sane result }
    {
        Self {
            short: true,
            ..self
        }
    }

    // A program done, and below an erase done: one line differs, and a function with the counter as a parameter would be no shorter.
    pub(crate) fn programmed(self) -> Self
        requires { Sane self × (1 ≤ self.left) }
        ensures { (result ≡ spent (program 0 [] []) self) × Sane result }
    {
        Self {
            left: self.left - 1,
            programs: self.programs + 1,
            ..self
        }
    }

    pub(crate) fn erased(self) -> Self
        requires { Sane self × (1 ≤ self.left) }
        ensures { (result ≡ spent (erase 0) self) × Sane result }
    {
        Self {
            left: self.left - 1,
            erases: self.erases + 1,
            ..self
        }
    }

    // The answer of a command whose steps are over.
    pub fn answer(self) -> Answer
        ensures { result ≡ finished self }
    {
        let Self {
            programs,
            erases,
            ..
        } = self;
        if self.short {
            Answer::Cut { programs, erases }
        } else {
            Answer::Done { programs, erases }
        }
    }
}
