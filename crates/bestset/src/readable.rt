// What is judged before the results are read: the catalogue, the table's length, the year, the number of results; and each result as it is read.
ghost use Rattle.std.specs.Prelude.{◌≡◌, ◌≤◌};
ghost use Rattle.paper.specs.Limits.{most_subjects};
ghost use Rattle.paper.specs.Promises.{said};
ghost use Rattle.paper.specs.Rulings.{judged};
ghost use Rattle.catalogue.specs.Catalogue.{subjects};
ghost use Rattle.scores.specs.Promise.{looked};
ghost use Rattle.results.specs.Results.{student};
ghost use Rattle.sets.specs.Rules.{grade_fits, wrong, is_score, input_rules};
ghost use Rattle.bestset.specs.InnerJudging.{unscored_with, rules_of, start_rules};

use catalogue::kinds::Kind;
use paper::limits::{
    ENTRY_BYTES, FIRST_YEAR, LEAST_YEAR, MOST_RESULTS, MOST_YEAR, RESULT_BYTES, ROW_BYTES, SLOTS,
};
use paper::refusal::Refusal;
use results::counting;
use results::reading::StudentResult;
use scores::slots::Slot;

// Whether letter and number fit the kind.
fn grade_fits(res: StudentResult) -> bool
    ensures { result ≡ grade_fits res }
{
    match Kind::try_from(res.entry.kind) {
        Ok(Kind::Vet) => matches!(res.letter, b'Y' | b'N') && res.number == 0,
        Ok(Kind::General | Kind::Extension | Kind::ExternalExamination) => {
            matches!(res.letter, b'A'..=b'E') && (1..=SLOTS).contains(&usize::from(res.number))
        }
        Ok(Kind::Applied | Kind::ShortCourse) | Err(_) => {
            matches!(res.letter, b'A'..=b'E') && res.number == 0
        }
    }
}

// Whether letter, number or year is wrong for the kind.
#[tactic(auto, unfolding(sets::specs::Rules::wrong))]
fn wrong(year: u64, res: StudentResult) -> bool
    ensures { result ≡ wrong year res }
{
    !grade_fits(res) || !(FIRST_YEAR..=year).contains(&u64::from(res.year))
}

fn is_score(slot: Slot) -> bool
    ensures { result ≡ is_score (looked slot) }
{
    matches!(slot, Slot::Score(_))
}

// Whether a result is usable and what is found in its slot is no score.
fn unscored(res: StudentResult, slot: Slot) -> bool
    ensures { result ≡ unscored_with res (looked slot) }
{
    counting::usable(res) && !is_score(slot)
}

// 3, 4, 5 of a result with what is found in its slot, at a place, where there are so many subjects.
pub(crate) fn judge_result(
    subjects: usize,
    year: u64,
    res: StudentResult,
    slot: Slot,
    place: usize,
) -> Result<(), Refusal>
    ensures { said result ≡ judged (rules_of subjects year res (looked slot) place) tt }
{
    if subjects <= usize::from(res.subject) {
        return Err(Refusal::WrongSubject(place));
    }
    if wrong(year, res) {
        return Err(Refusal::WrongResult(place));
    }
    if unscored(res, slot) {
        return Err(Refusal::WrongScore(place));
    }
    Ok(())
}

// 11, 14, and 1 and 2 of the results, for a catalogue within its limit.
fn judge_input(catalogue: &[u8], table: &[u8], year: u64, results: &[u8]) -> Result<(), Refusal>
    requires { subjects catalogue.now ≤ most_subjects }
    ensures { said result ≡ judged (input_rules (student catalogue.now year results.now) table.now) tt }
{
    if table.len() != ROW_BYTES * (catalogue.len() / ENTRY_BYTES) {
        return Err(Refusal::WrongLength);
    }
    if !(LEAST_YEAR..=MOST_YEAR).contains(&year) {
        return Err(Refusal::WrongYear(0));
    }
    let held = results.len() / RESULT_BYTES;
    if results.len() % RESULT_BYTES != 0 {
        return Err(Refusal::Malformed(held));
    }
    if MOST_RESULTS < held {
        return Err(Refusal::TooMany(MOST_RESULTS));
    }
    Ok(())
}

// What comes before the results are read, in the paper's order.
pub(crate) fn judge(
    catalogue: &[u8],
    table: &[u8],
    year: u64,
    results: &[u8],
) -> Result<(), Refusal>
    ensures { said result ≡ judged (start_rules (student catalogue.now year results.now) table.now) tt }
{
    catalogue::screen(catalogue)?;
    judge_input(catalogue, table, year, results)
}
