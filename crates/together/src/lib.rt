// Ranks and bands over the tally.
#![tactic(auto)]

ghost use Rattle.std.specs.Prelude.{◌≡◌};
ghost use Rattle.ranks.specs.Ranking.{ranks_of, percentiles_of};
ghost use Rattle.tally.specs.Counts.{tally_of};
ghost use Rattle.placements.specs.Placing.{remainder};
ghost use Rattle.placements.specs.Bands.{bands_of};
ghost use Rattle.placements.specs.Promise.{lent, together};
ghost use Rattle.placements.specs.InnerReady.{RankReady, TogetherReady};
ghost use Rattle.together.specs.Inner.{PlaceReady, Rankable, Readable, read_of, percents_of};

use ranks::percent;

// Each student's rank and percentile, from the numbers of students at most at each aggregate.
fn rank_each(aggregates: &[u32], sums: &[u32], ranks: &mut [u32], percentiles: &mut [u32])
    requires { Rankable aggregates.now sums.now ranks.old percentiles.old }
    ensures { (ranks.new ≡ read_of aggregates.now sums.now) × (percentiles.new ≡ percents_of aggregates.now sums.now) }
{
    let n = aggregates.len() as u32;
    // By index: a zip with `iter_mut` doesn't tell what is written, and two buffers are written at once.
    for (i, aggregate) in aggregates.iter().enumerate() {
        let rank = sums[*aggregate as usize];
        ranks[i] = rank;
        percentiles[i] = percent::percentile(n, rank) as u32;
    }
}

// Each student's rank and percentile. The tally is left in the counts.
fn rank_all(aggregates: &[u32], ranks: &mut [u32], percentiles: &mut [u32], counts: &mut [u32])
    requires { RankReady aggregates.now ranks.old percentiles.old counts.old }
    ensures { (ranks.new ≡ ranks_of aggregates.now) × (percentiles.new ≡ percentiles_of aggregates.now) × (counts.new ≡ tally_of aggregates.now) }
{
    tally::count(aggregates, counts);
    tally::sum_up(counts);
    rank_each(aggregates, counts, ranks, percentiles);
    tally::take_apart(counts);
}

// Each student's band, from the bands of the aggregates.
fn band_each(aggregates: &[u32], found: &[u32], bands: &mut [u16])
    requires { Readable aggregates.now found.now bands.old }
    ensures { bands.new ≡ read_of aggregates.now found.now }
{
    // By index: a zip with `iter_mut` doesn't tell what is written, and over the bands the aggregates would go by index.
    for (student, aggregate) in aggregates.iter().enumerate() {
        bands[student] = found[*aggregate as usize] as u16;
    }
}

// Each student's band, and the remainder. The tally is left in the counts.
fn place_all(
    aggregates: &[u32],
    table: &[u32],
    population: u32,
    bands: &mut [u16],
    counts: &mut [u32],
) -> usize
    requires { PlaceReady aggregates.now table.now population bands.old counts.old }
    ensures { (result ≡ remainder aggregates.now table.now population) × (bands.new ≡ bands_of aggregates.now table.now population) × (counts.new ≡ tally_of aggregates.now) }
{
    let remainder = tally::walk(table, population, counts);
    band_each(aggregates, counts, bands);
    tally::count(aggregates, counts); // again, for the bands stand there now
    remainder
}

// Each student's rank, percentile and band, the tally in the counts, and the remainder. The four buffers come one by one, as C lends them.
pub fn fill(
    aggregates: &[u32],
    table: &[u32],
    population: u32,
    ranks: &mut [u32],
    percentiles: &mut [u32],
    bands: &mut [u16],
    counts: &mut [u32],
) -> usize
    requires { TogetherReady aggregates.now table.now population (lent ranks.old percentiles.old bands.old counts.old) }
    ensures { (result ≡ remainder aggregates.now table.now population) × (lent ranks.new percentiles.new bands.new counts.new ≡ together aggregates.now table.now population) }
{
    rank_all(aggregates, ranks, percentiles, counts);
    place_all(aggregates, table, population, bands, counts)
}
