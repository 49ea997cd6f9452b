// What C is told of the population and the rate.
ghost use Rattle.std.specs.Prelude.{◌≡◌};
ghost use Rattle.told.specs.Participation.{form};

use crate::telling::{Told, tell};
use curve::Participation;
use paper::refusal::Refusal;

// Refused: population and rate are 0. Laid out as the header's flat shtegomir_curve, whose fields have names of their own, so that no generic
// struct serves here and for the best set.
#[repr(C)]
#[derive(Drop)]
pub struct Curve {
    pub told: Told,
    pub population: u32,
    pub rate: u32,
}

impl From<Result<Participation, Refusal>> for Curve {
    ghost from_gives = { λ answer given. given ≡ form answer };

    fn from(answer: Result<Participation, Refusal>) -> Curve {
        let Participation { population, rate } = answer.unwrap_or_default();
        Curve {
            told: tell(answer),
            population,
            rate,
        }
    }
}
