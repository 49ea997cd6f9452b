// The ranks, percentiles and bands of the eligible.
ghost use Rattle.std.specs.Prelude.{◌≡◌};
ghost use Rattle.curve.specs.Curve.{table_of};
ghost use Rattle.placements.specs.Placing.{remainder};
ghost use Rattle.printed.specs.Report.{columns_of};
ghost use Rattle.printed.specs.InnerCohorts.{columns, Placeable};

use paper::limits::BAND_COUNT;

// Ranks the eligible and places them in bands, and answers the remainder. The table is drawn and neither call refuses: table-drawn,
// ranks-accept and bands-accept in printed/proofs/Accepting.antt.
pub(crate) fn place(
    aggregates: &[u32],
    rate: u32,
    population: u32,
    ranks: &mut [u32],
    percentiles: &mut [u32],
    bands: &mut [u16],
) -> usize
    requires { Placeable rate population (columns aggregates.now ranks.old percentiles.old bands.old) }
    ensures { (columns aggregates.now ranks.new percentiles.new bands.new ≡ columns_of aggregates.now (table_of rate) population)
        × (result ≡ remainder aggregates.now (table_of rate) population) }
{
    let mut table = [0u32; BAND_COUNT];
    curve::draw(rate, &mut table);
    let _ = ranks::ranks(aggregates, ranks, percentiles);
    bands::place(aggregates, &table, population, bands).unwrap_or(0)
}
