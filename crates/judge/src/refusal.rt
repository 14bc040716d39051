// Why a plan is refused, with the step.
ghost use Rattle.std.specs.Prelude.{◌≡◌};
ghost use Rattle.refusals.specs.Refused.{number_of};

use refusals::{Answer, Refusal};

// A refusal, and its place: the step counted from 0 for refusals 6 to 9, else 0.
#[derive(Clone, Copy)]
pub struct PlanRefusal {
    pub refusal: Refusal,
    pub place: u32,
}

impl From<Refusal> for PlanRefusal {
    ghost from_gives = { λ r e. e ≡ record { refusal = r; place = 0 } };

    fn from(refusal: Refusal) -> PlanRefusal {
        PlanRefusal { refusal, place: 0 }
    }
}

impl From<PlanRefusal> for Answer {
    ghost from_gives = { λ e a. a ≡ record { refusal = number_of e.refusal; place = e.place } };

    fn from(refused: PlanRefusal) -> Answer {
        Answer {
            refusal: refused.refusal.number(),
            place: refused.place,
        }
    }
}
