// What a catalogue entry means, its ranges, and the test of a whole catalogue.
#![tactic(auto)]

ghost use Rattle.catalogue.specs.Promise.{Promise};

use paper::limits::{ENTRY_BYTES, MOST_SUBJECTS};
use paper::refusal::Refusal;

pub mod entries;
pub mod kinds;

// The test of a whole catalogue.
pub fn screen(catalogue: &[u8]) -> Result<(), Refusal>
    ensures { Promise catalogue.now result }
{
    let subjects = catalogue.len() / ENTRY_BYTES;
    if catalogue.len() % ENTRY_BYTES != 0 {
        return Err(Refusal::Malformed(subjects));
    }
    if MOST_SUBJECTS < subjects {
        return Err(Refusal::TooMany(MOST_SUBJECTS));
    }
    let outside = entries::first_outside(catalogue);
    if outside < subjects {
        return Err(Refusal::WrongSubject(outside));
    }
    Ok(())
}
