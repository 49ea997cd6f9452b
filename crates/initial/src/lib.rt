// First scaled scores of a subject, from how many students have each raw result.
#![tactic(auto)]

ghost use Rattle.firsts.specs.Promise.{Promise};
ghost use Rattle.initial.specs.Inner.{Scored};

use catalogue::kinds::Kind;
use paper::bounds;
use paper::limits::{MOST_COUNT, ROW_BYTES};
use paper::refusal::Refusal;

mod counts;
mod row;

// The kind of a subject that has first scores: any but a short course.
fn scored(kind: u32) -> Result<Kind, Refusal>
    ensures { Scored kind result }
{
    let Ok(number) = u8::try_from(kind) else {
        return Err(Refusal::WrongSubject(0));
    };
    match Kind::try_from(number) {
        Ok(Kind::ShortCourse) | Err(_) => Err(Refusal::WrongSubject(0)),
        Ok(known) => Ok(known),
    }
}

// Writes the subject's row of the table, and no other. A refusal writes nothing. Kind and subject are wide, so that neither is cut.
pub fn first_scores(
    kind: u32,
    subject: u32,
    counts: &[u32],
    table: &mut [u8],
) -> Result<(), Refusal>
    ensures { Promise kind subject counts.now table.old result table.new }
{
    let known = scored(kind)?;
    // by a quotient: the bytes before any subject at all could wrap; `as`, since a usize is made from no u32 by From
    if table.len() / ROW_BYTES <= subject as usize {
        return Err(Refusal::WrongSubject(0));
    }
    if counts.len() != row::asked(known) {
        return Err(Refusal::WrongLength);
    }
    if table.len() % ROW_BYTES != 0 {
        return Err(Refusal::WrongLength);
    }
    let over = bounds::first_over(counts, MOST_COUNT);
    if over < counts.len() {
        return Err(Refusal::WrongCount(over));
    }
    let total = counts::total(counts);
    if u64::from(MOST_COUNT) < total {
        return Err(Refusal::WrongCount(0));
    }
    let start = ROW_BYTES * subject as usize;
    row::fill(known, counts, total, &mut table[start..start + ROW_BYTES]);
    Ok(())
}
