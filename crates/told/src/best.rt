// What C is told of the best set.
ghost use Rattle.std.specs.Prelude.{◌≡◌};
ghost use Rattle.told.specs.Best.{form};

use crate::telling::{Told, tell};
use paper::refusal::Refusal;
use sets::BestSet;

// Refused: aggregate and set are 0. Laid out as the header's flat shtegomir_best.
#[repr(C)]
#[derive(Drop)]
pub struct Best {
    pub told: Told,
    pub aggregate: u32,
    pub set: u16,
}

impl From<Result<BestSet, Refusal>> for Best {
    ghost from_gives = { λ answer given. given ≡ form answer };

    fn from(answer: Result<BestSet, Refusal>) -> Best {
        let BestSet { aggregate, set } = answer.unwrap_or_default();
        Best {
            told: tell(answer),
            aggregate,
            set,
        }
    }
}
