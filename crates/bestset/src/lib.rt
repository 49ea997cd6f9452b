// One student: the best set of five results, or why there is none.
#![tactic(auto)]

ghost use Rattle.std.specs.Prelude.{◌≡◌};
ghost use Rattle.paper.specs.Promises.{said};
ghost use Rattle.results.specs.Results.{student};
ghost use Rattle.sets.specs.Promise.{aggregate_of, Promise};
ghost use Rattle.bestset.specs.InnerMarks.{outcome};
ghost use Rattle.bestset.specs.InnerJudging.{Begun};

use clashes::pairs;
use paper::limits::{MOST_RESULTS, RESULT_BYTES, SCORE_PARTS};
use paper::refusal::Refusal;
use paper::rounding;
use paper::units::HUNDREDTHS;
use seek::search::{Lead, Search, Test};
use sets::BestSet;

mod marks;
mod readable;

// The aggregate of a sum of scores: in hundredths, nearest, halves up.
fn aggregate_of(sum: u32) -> u32
    ensures { result ≡ aggregate_of sum }
{
    // by `as`: it narrows
    rounding::nearest(HUNDREDTHS * u64::from(sum), u64::from(SCORE_PARTS)) as u32
}

// What the search found: the aggregate and the set, or 8.
fn told(lead: Option<Lead>) -> Result<BestSet, Refusal>
    ensures { said result ≡ outcome lead }
{
    lead.map(|lead| BestSet {
        aggregate: aggregate_of(lead.total),
        set: lead.set,
    })
    .ok_or(Refusal::NoSet)
}

// The best set of a student with a catalogue, a table, a year and a number of results that are right: for each result 3, 4, 5, then 6, 7, 8 are left.
// The results stay where they are lent; beside them there are three numbers to each: score, identity, and which it clashes with.
// The numbers stand in three arrays, for the search is lent two of them.
// Catalogue, table, year and results go on one by one, as C lends them: a struct of the four would only be taken apart in each function.
fn weigh(catalogue: &[u8], table: &[u8], year: u64, results: &[u8]) -> Result<BestSet, Refusal>
    requires { Begun (student catalogue.now year results.now) table.now }
    ensures { Promise (student catalogue.now year results.now) table.now result }
{
    let mut scores = [0u32; MOST_RESULTS];
    let mut identities = [0u16; MOST_RESULTS];
    let mut clashes = [0u16; MOST_RESULTS];
    let masks = marks::read_all(
        catalogue,
        table,
        year,
        results,
        &mut scores,
        &mut identities,
    )?;
    let kept = pairs::compare(results, masks, &identities, &mut clashes)?;
    if masks.passes == 0 {
        return Err(Refusal::NoEnglish);
    }
    let search = Search {
        test: Test {
            kept,
            general: masks.general,
        },
        clashes: &clashes,
        scores: &scores,
        held: results.len() / RESULT_BYTES,
    };
    told(search.search())
}

// The best set of five results, for the assessment year.
pub fn best_set(
    catalogue: &[u8],
    table: &[u8],
    year: u64,
    results: &[u8],
) -> Result<BestSet, Refusal>
    ensures { Promise (student catalogue.now year results.now) table.now result }
{
    readable::judge(catalogue, table, year, results)?;
    weigh(catalogue, table, year, results)
}
