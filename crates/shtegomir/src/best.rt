// The best set of one student.
ghost use Rattle.results.specs.Results.{student};
ghost use Rattle.told.specs.Best.{BestCalled};

use told::best::Best;

// The year has 32 bits, so that a caller's wrong year is refused and never cut to a right one.
#[unsafe(no_mangle)]
pub extern "C" fn shtegomir_best_set(
    catalogue: &[u8],
    table: &[u8],
    year: u32,
    results: &[u8],
) -> Best
    ensures { BestCalled (student catalogue.now year results.now) table.now result }
{
    Best::from(bestset::best_set(catalogue, table, u64::from(year), results))
}
