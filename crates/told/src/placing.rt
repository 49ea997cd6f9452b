// What C is told of bands.
ghost use Rattle.std.specs.Prelude.{◌≡◌, ◌≤◌};
ghost use Rattle.paper.specs.Limits.{most_tallied};
ghost use Rattle.paper.specs.Rulings.{values_or};
ghost use Rattle.paper.specs.Promises.{said};
ghost use Rattle.told.specs.Placing.{form};

use crate::telling::{Told, tell};
use paper::refusal::Refusal;

// Refused: the remainder is 0. Laid out as the header's flat shtegomir_placed.
#[repr(C)]
#[derive(Drop)]
pub struct Placed {
    pub told: Told,
    pub remainder: u32,
}

// No more are left over than there are students. No From, which asks nothing of its caller: the remainder has to fit.
pub fn flatten(answer: Result<usize, Refusal>) -> Placed
    requires { values_or 0 (said answer) ≤ most_tallied }
    ensures { result ≡ form answer }
{
    Placed {
        told: tell(answer),
        remainder: answer.unwrap_or_default() as u32,
    }
}
