// The placing of students in bands: by direct count, and over the tally with their ranks.
#![tactic(auto)]

ghost use Rattle.placements.specs.Promise.{Promise, lent, TogetherPromise};

use paper::refusal::Refusal;

mod screening;

// Bands of up to 512 students, by direct count. A refusal writes nothing. Here and below what is lent goes on one by one, as C lends it, until it is
// judged: a struct of a table and Y (`Places`) asks that they are right.
pub fn place(
    aggregates: &[u32],
    table: &[u32],
    population: u32,
    bands: &mut [u16],
) -> Result<usize, Refusal>
    ensures { Promise aggregates.now table.now population bands.old result bands.new }
{
    screening::direct(aggregates, table, population, bands.len())?;
    Ok(direct::place_each(aggregates, table, population, bands))
}

// Ranks, percentiles and bands of up to 100000 students, over a tally in a lent buffer of 50001 counts, whatever the buffers held
// before. It fills all of them, or a refusal writes nothing.
pub fn rank_and_place(
    aggregates: &[u32],
    table: &[u32],
    population: u32,
    ranks: &mut [u32],
    percentiles: &mut [u32],
    bands: &mut [u16],
    counts: &mut [u32],
) -> Result<usize, Refusal>
    ensures { TogetherPromise aggregates.now table.now population
        (lent ranks.old percentiles.old bands.old counts.old) result
        (lent ranks.new percentiles.new bands.new counts.new) }
{
    screening::together(
        aggregates,
        table,
        population,
        ranks.len(),
        percentiles.len(),
        bands.len(),
        counts.len(),
    )?;
    let remainder = together::fill(
        aggregates,
        table,
        population,
        ranks,
        percentiles,
        bands,
        counts,
    );
    Ok(remainder)
}
