// What every entry tells C first: the refusal and its place.
ghost use Rattle.std.specs.Prelude.{◌≡◌};
ghost use Rattle.paper.specs.Promises.{said};
ghost use Rattle.told.specs.Telling.{told, form};

use paper::refusal::Refusal;

// Accepted: both are 0. Refused: the refusal's number, which is not 0, and its place. It stands first in every struct that C gets, so
// that the struct lies as the header's flat one does: refusal, place, then the values.
#[repr(C)]
#[derive(Drop)]
pub struct Told {
    pub refusal: u64,
    pub place: u64,
}

// Of any answer, whatever its values.
pub(crate) fn tell<T: Copy>(answer: Result<T, Refusal>) -> Told
    ensures { result ≡ told (said answer) }
{
    match answer {
        Ok(_) => Told {
            refusal: 0,
            place: 0,
        },
        Err(x) => Told {
            refusal: u64::from(x.number()),
            place: x.place() as u64,
        },
    }
}

// Ranks and first scores have no values: the header's shtegomir_ranked and shtegomir_scored are refusal and place alone.
impl From<Result<(), Refusal>> for Told {
    ghost from_gives = { λ answer given. given ≡ form answer };

    fn from(answer: Result<(), Refusal>) -> Told {
        tell(answer)
    }
}
