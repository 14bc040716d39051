// The answer of a call, as C gets it.
ghost use Rattle.std.specs.Prelude.{◌≡◌, eqb};
ghost use Rattle.refusals.specs.Answers.{Answers};
ghost use Rattle.refusals.specs.Refused.{number_of, refused};

use super::Refusal;

// The first field of every answer: document 01's refusal number, 0 for an accepted call, and the
// place, the step counted from 0 for refusals 6 to 9, else 0.
#[repr(C)]
#[derive(Clone, Copy, Debug, Default, PartialEq, Eq)]
pub struct Answer {
    pub refusal: u8,
    pub place: u32,
}

impl Answer {
    // The answer of a call that is not refused.
    pub fn accepted() -> Answer
        ensures { Answers 0 result }
    {
        Answer::default()
    }

    // Was the call accepted?
    pub fn is_accepted(self) -> bool
        ensures { result ≡ eqb self.refusal 0 }
    {
        self.refusal == 0
    }
}

impl From<Refusal> for Answer {
    ghost from_gives = { λ r a. Answers (number_of r) a };

    fn from(refusal: Refusal) -> Answer {
        Answer {
            refusal: refusal.number(),
            place: 0,
        }
    }
}

impl From<Result<(), Refusal>> for Answer {
    ghost from_gives = { λ r a. Answers (refused r) a };

    fn from(done: Result<(), Refusal>) -> Answer {
        match done {
            Ok(()) => Answer::accepted(),
            Err(refusal) => Answer::from(refusal),
        }
    }
}
