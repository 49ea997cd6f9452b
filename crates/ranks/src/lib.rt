// For each value its rank and its percentile.
#![tactic(auto)]

ghost use Rattle.ranks.specs.Promise.{lent, Ranked, Promise};
ghost use Rattle.ranks.specs.Inner.{Fillable};

use paper::limits::MOST_VALUES;
use paper::refusal::Refusal;

pub mod percent;
mod search;
mod sort;

// Fills both buffers, sorting the values in them first.
fn fill(values: &[u32], ranks: &mut [u32], percentiles: &mut [u32])
    requires { Fillable values.now ranks.old percentiles.old }
    ensures { Ranked values.now (lent ranks.new percentiles.new) }
{
    sort::copy(values, ranks);
    sort::copy(values, percentiles);
    sort::sort(ranks, percentiles);
    search::count_each(values, percentiles, ranks);
    percent::percent_each(ranks, percentiles);
}

// Fills a rank and a percentile for each value. A refusal writes nothing.
pub fn ranks(values: &[u32], ranks: &mut [u32], percentiles: &mut [u32]) -> Result<(), Refusal>
    ensures { Promise values.now (lent ranks.old percentiles.old) result (lent ranks.new percentiles.new) }
{
    if MOST_VALUES < values.len() {
        return Err(Refusal::TooMany(MOST_VALUES));
    }
    if ranks.len() != values.len() {
        return Err(Refusal::WrongLength);
    }
    if percentiles.len() != values.len() {
        return Err(Refusal::WrongLength);
    }
    fill(values, ranks, percentiles);
    Ok(())
}
