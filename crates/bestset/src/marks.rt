// What is read of the results, each once: masks of their sorts, bit i for result i, and scores and identities by position.
ghost use Rattle.std.specs.Prelude.{◌≡◌, ◌<◌};
ghost use Rattle.paper.specs.Limits.{most_results};
ghost use Rattle.results.specs.Results.{student};
ghost use Rattle.bestset.specs.InnerMarks.{with_one, ToRead, ReadAs};

use crate::readable;
use catalogue::kinds;
use catalogue::kinds::{ENGLISH, MATHEMATICS};
use clashes::masks::{Masks, marked};
use paper::limits::{ENTRY_BYTES, MOST_RESULTS, RESULT_BYTES};
use paper::refusal::Refusal;
use results::reading::StudentResult;
use results::{counting, reading, scoring};

// The masks with result i.
fn with_one(masks: Masks, i: usize, res: StudentResult) -> Masks
    requires { i < most_results }
    ensures { result ≡ with_one masks i res }
{
    let general = kinds::is_general(res.entry.kind);
    let applied = kinds::is_applied(res.entry.kind);
    let english = res.entry.strand == ENGLISH;
    let maths = res.entry.strand == MATHEMATICS;
    // `&`, so that filling in a mask has no branch of its own.
    Masks {
        usable: marked(masks.usable, i, counting::usable(res)),
        passes: marked(masks.passes, i, counting::passes(res)),
        general: marked(masks.general, i, general),
        general_english: marked(masks.general_english, i, general & english),
        applied_english: marked(masks.applied_english, i, applied & english),
        general_maths: marked(masks.general_maths, i, general & maths),
        applied_maths: marked(masks.applied_maths, i, applied & maths),
    }
}

// Reads and judges all results in one pass, 3, 4, 5 of each in turn; the buffers are given blank. Each is read once, with its catalogue entry and its
// slot, for every rule that asks.
pub(crate) fn read_all(
    catalogue: &[u8],
    table: &[u8],
    year: u64,
    results: &[u8],
    scores: &mut [u32; MOST_RESULTS],
    identities: &mut [u16; MOST_RESULTS],
) -> Result<Masks, Refusal>
    requires { ToRead results.now scores.old identities.old }
    ensures { ReadAs (student catalogue.now year results.now) table.now result scores.new identities.new }
{
    let mut masks = Masks::default();
    for i in 0..results.len() / RESULT_BYTES {
        let result = reading::result_at(catalogue, results, i);
        let slot = scoring::slot_of(table, result);
        readable::judge_result(catalogue.len() / ENTRY_BYTES, year, result, slot, i)?;
        masks = with_one(masks, i, result);
        identities[i] = scoring::identity_of(result);
        scores[i] = scoring::score_of(slot);
    }
    Ok(masks)
}
