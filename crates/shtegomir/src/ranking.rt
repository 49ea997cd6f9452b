// Ranks and percentiles.
ghost use Rattle.ranks.specs.Promise.{lent};
ghost use Rattle.told.specs.Ranking.{RankCalled};

use told::telling::Told;

#[unsafe(no_mangle)]
pub extern "C" fn shtegomir_rank(values: &[u32], ranks: &mut [u32], percentiles: &mut [u32]) -> Told
    ensures { RankCalled values.now (lent ranks.old percentiles.old) result (lent ranks.new percentiles.new) }
{
    Told::from(ranks::ranks(values, ranks, percentiles))
}
