// What refuses Y and a participation table, and aggregates.
ghost use Rattle.std.specs.Prelude.{◌≡◌};
ghost use Rattle.paper.specs.Rulings.{judged};
ghost use Rattle.paper.specs.Promises.{said};
ghost use Rattle.tally.specs.Rules.{table_rules, aggregate_rules};

use paper::bounds;
use paper::limits::{MOST_AGGREGATE, MOST_ENTRY, MOST_POPULATION};
use paper::refusal::Refusal;

// 9 and 13: Y and the table's entries.
pub fn judge_table(table: &[u32], population: u32) -> Result<(), Refusal>
    ensures { said result ≡ judged (table_rules table.now population) tt }
{
    if !(1..=MOST_POPULATION).contains(&u64::from(population)) {
        return Err(Refusal::WrongPopulation(0));
    }
    let entry = bounds::first_over(table, MOST_ENTRY);
    if entry < table.len() {
        return Err(Refusal::WrongEntry(entry));
    }
    Ok(())
}

// 12: the aggregates.
pub fn judge_aggregates(aggregates: &[u32]) -> Result<(), Refusal>
    ensures { said result ≡ judged (aggregate_rules aggregates.now) tt }
{
    let aggregate = bounds::first_over(aggregates, MOST_AGGREGATE);
    if aggregate < aggregates.len() {
        return Err(Refusal::WrongAggregate(aggregate));
    }
    Ok(())
}
