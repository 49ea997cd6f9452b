// Which results count: usable, and showing English.
ghost use Rattle.std.specs.Prelude.{◌≡◌};
ghost use Rattle.results.specs.Counting.{usable, passes};

use crate::reading::StudentResult;
use catalogue::kinds::{CERTIFICATE_III, ENGLISH, Kind};

// Kinds 1 to 4, or VET with Y and level 3 or more; of any year.
#[tactic(auto, unfolding(crate::specs::Counting::usable))]
pub fn usable(res: StudentResult) -> bool
    ensures { result ≡ usable res }
{
    match Kind::try_from(res.entry.kind) {
        Ok(Kind::General | Kind::Extension | Kind::ExternalExamination | Kind::Applied) => true,
        Ok(Kind::Vet) => res.letter == b'Y' && CERTIFICATE_III <= res.entry.level,
        Ok(Kind::ShortCourse) | Err(_) => false,
    }
}

// Whether a result shows English.
pub fn passes(res: StudentResult) -> bool
    ensures { result ≡ passes res }
{
    usable(res) && res.entry.strand == ENGLISH && matches!(res.letter, b'A'..=b'C')
}
