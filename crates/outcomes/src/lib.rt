// Each student's outcome, once: the aggregates of the eligible, the number and the place of each refusal.
#![tactic(auto)]

ghost use Rattle.std.specs.Prelude.{◌≡◌, ◌+◌, ◌*◌, ◌≤◌, ◌<◌, length};
ghost use Rattle.paper.specs.Limits.{result_bytes};
ghost use Rattle.paper.specs.Rulings.{number_in, place_in};
ghost use Rattle.paper.specs.Promises.{said};
ghost use Rattle.printed.specs.Report.{outcome, after_one};
ghost use Rattle.outcomes.specs.Inner.{outcome_at, joined, Collectable, Collected};

use paper::limits::RESULT_BYTES;
use paper::refusal::Refusal;
use sets::BestSet;

// The best set of the student whose results stand from a place on.
fn best_at(
    catalogue: &[u8],
    table: &[u8],
    year: u64,
    results: &[u8],
    place: usize,
    count: usize,
) -> Result<BestSet, Refusal>
    requires { place + result_bytes * count ≤ length results.now }
    ensures { said result ≡ outcome_at catalogue.now table.now year results.now place count }
{
    let end = place + RESULT_BYTES * count;
    bestset::best_set(catalogue, table, year, &results[place..end])
}

// The number and the place of a refusal, both 0 of an eligible student.
fn refusal_in(answer: Result<BestSet, Refusal>) -> (u8, usize)
    ensures { (result.0 ≡ number_in (said answer)) × (result.1 ≡ place_in (said answer)) }
{
    match answer {
        Ok(_) => (0, 0),
        Err(x) => (x.number(), x.place()),
    }
}

// Joins the aggregate of an eligible student to j others, and counts them.
fn join(answer: Result<BestSet, Refusal>, j: usize, aggregates: &mut [u32]) -> usize
    requires { j < length aggregates.old }
    ensures { (aggregates.new ≡ joined (said answer) aggregates.old j) × (result ≡ after_one j (said answer)) }
{
    match answer {
        Ok(best) => {
            aggregates[j] = best.aggregate;
            j + 1
        }
        Err(_) => j,
    }
}

// Notes what is told of each student, collects the aggregates of the eligible in file order, and counts these. The number of a student's
// results is not needed after it, and gives way to the number of its refusal. Numbers, aggregates and places stand in columns, a byte or a number to
// each: what ranks and places the eligible is lent slices of numbers.
pub fn collect(
    catalogue: &[u8],
    table: &[u8],
    year: u64,
    results: &[u8],
    counts: &mut [u8],
    aggregates: &mut [u32],
    places: &mut [u8],
) -> usize
    requires { Collectable catalogue.now counts.old results.now aggregates.old places.old }
    ensures { Collected (outcome catalogue.now table.now year) counts.old results.now aggregates.new counts.new places.new result }
{
    let mut place = 0;
    let mut eligible = 0;
    // By index: of each student one column is read and written over, and another written.
    for i in 0..counts.len() {
        let count = usize::from(counts[i]);
        let answer = best_at(catalogue, table, year, results, place, count);
        eligible = join(answer, eligible, aggregates);
        let (number, at) = refusal_in(answer);
        counts[i] = number;
        // A student's place is at most 64 subjects, 16 results and the greatest limit, 64: `place-near` (sets/proofs/Places.antt).
        places[i] = at as u8;
        place += RESULT_BYTES * count;
    }
    eligible
}
