// The counts of aggregates, their sums, and the walk that turns them into bands and the remainder.
#![tactic(auto)]

ghost use Rattle.std.specs.Prelude.{◌≡◌, ◌≤◌};
ghost use Rattle.paper.specs.Limits.{most_tallied};
ghost use Rattle.paper.specs.Lists.{sum_of};
ghost use Rattle.tally.specs.Counts.{tally_of};
ghost use Rattle.tally.specs.Inner.{Countable, Walkable};
ghost use Rattle.tally.specs.InnerTally.{sums_to, steps_of, Rising, sums_from, bands_by, remainder_by};

pub mod screening;
pub mod search;

use search::Places;

// In entry t the number of students with aggregate t, whatever the counts held before.
pub fn count(aggregates: &[u32], counts: &mut [u32])
    requires { Countable aggregates.now counts.old }
    ensures { counts.new ≡ tally_of aggregates.now }
{
    counts.fill(0);
    for aggregate in aggregates {
        counts[*aggregate as usize] += 1;
    }
}

// Turns each count into the sum of the counts up to it.
pub fn sum_up(counts: &mut [u32])
    requires { sum_of counts.old ≤ most_tallied }
    ensures { counts.new ≡ sums_to counts.old }
{
    let mut sum: u32 = 0;
    for n in counts.iter_mut() {
        sum += *n;
        *n = sum;
    }
}

// Turns such sums into the counts again.
pub fn take_apart(sums: &mut [u32])
    requires { Rising sums.old }
    ensures { sums.new ≡ steps_of sums.old }
{
    let mut below: u32 = 0;
    for n in sums.iter_mut() {
        let sum = *n;
        *n -= below;
        below = sum;
    }
}

// Turns each count of a tally into the band of its C, from the highest aggregate down, adding it to C and going on with the band
// search where it stopped. Answers the remainder.
pub fn walk(table: &[u32], population: u32, counts: &mut [u32]) -> usize
    requires { Walkable table.now population counts.old }
    ensures { (result ≡ remainder_by table.now population (sums_from counts.old)) × (counts.new ≡ bands_by table.now population (sums_from counts.old)) }
{
    let places = Places { table, population };
    let mut reached = places.top();
    let mut c: u32 = 0;
    let mut remainder: usize = 0;
    // By index, since it goes down: nothing is known of what `iter_mut().rev()` writes.
    for t in (0..counts.len()).rev() {
        let here = counts[t];
        c += here;
        reached = places.go_on(c, reached);
        remainder += search::left_over(c, reached.places, here);
        counts[t] = reached.band as u32;
    }
    remainder
}
