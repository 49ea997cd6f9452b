// First scaled scores of a subject, from counts.
ghost use Rattle.told.specs.Scoring.{ScoresCalled};

use told::telling::Told;

#[unsafe(no_mangle)]
pub extern "C" fn shtegomir_first_scores(
    kind: u32,
    subject: u32,
    counts: &[u32],
    table: &mut [u8],
) -> Told
    ensures { ScoresCalled kind subject counts.now table.old result table.new }
{
    Told::from(initial::first_scores(kind, subject, counts, table))
}
