// The records of refused calls.
ghost use Rattle.refusals.specs.Refused.{number_of};
ghost use Rattle.image_layout.specs.Says.{ImageRefused, PlaceSays, UnitRefused, FilmRefused};

use super::{FilmPlace, Image, Place, UnitPlace};
use refusals::Refusal;

// A refusal of a layout: every other field is 0.
impl From<Refusal> for Image {
    ghost from_gives = { λ r i. ImageRefused (number_of r) i };

    fn from(refusal: Refusal) -> Image {
        Image {
            answer: refusal.into(),
            stripes: 0,
            units: 0,
            end: 0,
            bytes: 0,
        }
    }
}

// A refusal of a place: every other field is 0.
impl From<Refusal> for Place {
    ghost from_gives = { λ r p. PlaceSays (number_of r) 0 0 p };

    fn from(refusal: Refusal) -> Place {
        Place {
            answer: refusal.into(),
            at: 0,
            bytes: 0,
        }
    }
}

// A refusal of a unit: every other field is 0.
impl From<Refusal> for UnitPlace {
    ghost from_gives = { λ r u. UnitRefused (number_of r) u };

    fn from(refusal: Refusal) -> UnitPlace {
        UnitPlace {
            answer: refusal.into(),
            first: 0,
            stripes: 0,
            at: 0,
            bytes: 0,
        }
    }
}

// A refusal of a byte of the film: every other field is 0.
impl From<Refusal> for FilmPlace {
    ghost from_gives = { λ r f. FilmRefused (number_of r) f };

    fn from(refusal: Refusal) -> FilmPlace {
        FilmPlace {
            answer: refusal.into(),
            stripe: 0,
            disk: 0,
            row: 0,
            byte: 0,
            at: 0,
        }
    }
}
