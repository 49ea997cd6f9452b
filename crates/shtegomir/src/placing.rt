// Bands, by direct count, and in one call with the ranks.
ghost use Rattle.placements.specs.Promise.{lent};
ghost use Rattle.told.specs.Placing.{DirectCalled, TogetherCalled};

use told::placing::{Placed, flatten};

#[unsafe(no_mangle)]
pub extern "C" fn shtegomir_place_direct(
    aggregates: &[u32],
    table: &[u32],
    population: u32,
    bands: &mut [u16],
) -> Placed
    ensures { DirectCalled aggregates.now table.now population bands.old result bands.new }
{
    flatten(bands::place(aggregates, table, population, bands))
}

#[unsafe(no_mangle)]
pub extern "C" fn shtegomir_rank_and_place(
    aggregates: &[u32],
    table: &[u32],
    population: u32,
    ranks: &mut [u32],
    percentiles: &mut [u32],
    bands: &mut [u16],
    counts: &mut [u32],
) -> Placed
    ensures { TogetherCalled aggregates.now table.now population
        (lent ranks.old percentiles.old bands.old counts.old) result
        (lent ranks.new percentiles.new bands.new counts.new) }
{
    flatten(bands::rank_and_place(
        aggregates,
        table,
        population,
        ranks,
        percentiles,
        bands,
        counts,
    ))
}
