// Placing by direct count.
#![tactic(auto)]

ghost use Rattle.std.specs.Prelude.{◌≡◌, ◌≤◌, length};
ghost use Rattle.paper.specs.Limits.{most_tallied};
ghost use Rattle.tally.specs.Counts.{at_least};
ghost use Rattle.placements.specs.Placing.{remainder};
ghost use Rattle.placements.specs.Bands.{bands_of};
ghost use Rattle.placements.specs.InnerReady.{Ready};

use tally::search::{self, Places};

// C, the number of students with an aggregate at least x.
fn at_least(aggregates: &[u32], x: u32) -> u32
    requires { length aggregates.now ≤ most_tallied }
    ensures { result ≡ at_least aggregates.now x }
{
    let mut n: u32 = 0;
    // No `filter` and `count`: they took ten times as long.
    for aggregate in aggregates {
        if x <= *aggregate {
            n += 1;
        }
    }
    n
}

// Each student's band, and the remainder.
pub fn place_each(aggregates: &[u32], table: &[u32], population: u32, bands: &mut [u16]) -> usize
    requires { Ready aggregates.now table.now population bands.old }
    ensures { (result ≡ remainder aggregates.now table.now population) × (bands.new ≡ bands_of aggregates.now table.now population) }
{
    let places = Places { table, population };
    let mut remainder: usize = 0;
    // By index: a zip with `iter_mut` doesn't tell what is written, and over the bands the aggregates would go by index.
    for (student, aggregate) in aggregates.iter().enumerate() {
        let c = at_least(aggregates, *aggregate);
        let reached = places.highest(c, places.top());
        bands[student] = reached.band as u16;
        remainder += search::left_over(c, reached.places, 1);
    }
    remainder
}
