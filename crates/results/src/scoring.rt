// What the sets are made of: the score of a result, and its identity.
ghost use Rattle.std.specs.Prelude.{◌≡◌};
ghost use Rattle.scores.specs.Promise.{looked};
ghost use Rattle.results.specs.Scoring.{score_found, worth, own_identity};

use crate::reading::StudentResult;
use catalogue::kinds;
use scores::slots;
use scores::slots::Slot;

// What is found in the slot of a result.
#[tactic(auto, unfolding(crate::specs::Scoring::score_found))]
pub fn slot_of(table: &[u8], res: StudentResult) -> Slot
    ensures { looked result ≡ score_found table.now res }
{
    let raw = slots::raw_of(res.entry.kind, res.letter, res.number);
    slots::look_up(table, usize::from(res.subject), raw)
}

// The score that was found, 0 where there is none.
pub fn score_of(slot: Slot) -> u32
    ensures { result ≡ worth (looked slot) }
{
    match slot {
        Slot::Score(score) => score.0,
        Slot::Missing | Slot::Over => 0,
    }
}

// The identity of kinds 1 and 3, 0 for the others.
#[tactic(auto, unfolding(crate::specs::Scoring::own_identity))]
pub fn identity_of(res: StudentResult) -> u16
    ensures { result ≡ own_identity res }
{
    if kinds::is_identified(res.entry.kind) {
        res.entry.identity
    } else {
        0
    }
}
