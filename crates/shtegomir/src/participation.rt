// The population, the rate and the participation table.
ghost use Rattle.told.specs.Participation.{CurveCalled};

use told::participation::Curve;

#[unsafe(no_mangle)]
pub extern "C" fn shtegomir_participation(figures: &[u32], table: &mut [u32]) -> Curve
    ensures { CurveCalled figures.now table.old result table.new }
{
    Curve::from(curve::curve(figures, table))
}
