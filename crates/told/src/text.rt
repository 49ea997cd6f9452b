// What C is told of a file's listing.
ghost use Rattle.std.specs.Prelude.{◌≡◌};
ghost use Rattle.told.specs.Text.{form};

use crate::telling::{Told, tell};
use paper::refusal::Refusal;

// Refused: the length is 0. Laid out as the header's flat shtegomir_text.
#[repr(C)]
#[derive(Drop)]
pub struct Text {
    pub told: Told,
    pub length: u64,
}

impl From<Result<usize, Refusal>> for Text {
    ghost from_gives = { λ answer given. given ≡ form answer };

    fn from(answer: Result<usize, Refusal>) -> Text {
        Text {
            told: tell(answer),
            length: answer.unwrap_or_default() as u64,
        }
    }
}
