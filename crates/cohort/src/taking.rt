// The taking pass: what the fields of a file hold is laid into lent buffers, and nothing is judged.
ghost use Rattle.std.specs.Prelude.{◌≡◌, ◌+◌, ◌-◌, ◌*◌, ◌≤◌, length, set};
ghost use Rattle.paper.specs.Limits.{result_bytes};
ghost use Rattle.paper.specs.Bytes.{byte, word, long};
ghost use Rattle.paper.specs.Parts.{laid};
ghost use Rattle.paper.specs.Rulings.{accepted};
ghost use Rattle.scores.specs.Rows.{stored};
ghost use Rattle.curve.specs.Population.{population_rules};
ghost use Rattle.held.specs.Taking.{figures_in};
ghost use Rattle.held.specs.Promise.{lent};
ghost use Rattle.cohort.specs.Inner.{verdict_on, Whole};
ghost use Rattle.cohort.specs.InnerValues.{NoneBroken, table_with, figures_to, result_to, numbers_with, rest, rest_with, Room, ResultRoom};

use crate::steps::SoFar;
use crate::values::{self, Field};
use curve::Participation;
use fields::heads::{HEAD_BYTES, Head};
use fields::order::Far;
use fields::tags::Tag;
use fields::{heads, order};
use paper::bytes;
use paper::limits::{
    CATALOGUE_BYTES, ENTRY_BYTES, FIGURE_COUNT, MOST_STUDENTS, RESULT_BYTES, RESULTS_BYTES,
    TABLE_BYTES,
};
use scores::rows;
use scores::slots::{Raw, Scaled};

// Lays a value into a buffer, from a place on.
fn lay(buffer: &mut [u8], place: usize, value: &[u8])
    requires { place + length value.now ≤ length buffer.old }
    ensures { buffer.new ≡ laid buffer.old place value.now }
{
    let end = place + value.len();
    buffer[place..end].copy_from_slice(value);
}

// A score, in its slot of the subject's row.
fn store_score(value: &[u8], table: &mut [u8])
    ensures { table.new ≡ stored table.old (word value.now 0) (byte value.now 2) (long value.now 3) }
{
    let subject = usize::from(bytes::word_at(value, 0));
    let slot = bytes::byte_at(value, 2);
    let score = bytes::long_at(value, 3);
    rows::store(table, subject, Raw(slot), Scaled(score));
}

// Tags 2 and 3 in the score table: a subject's row begins with every slot missing, and a score goes to its slot.
fn take_scores(far: Far, field: Field, table: &mut [u8; TABLE_BYTES])
    ensures { table.new ≡ table_with far field.entry.tag field.entry.value.now table.old }
{
    match Tag::try_from(field.tag) {
        Ok(Tag::Subject) => rows::clear(table, far.subjects),
        Ok(Tag::Score) => store_score(field.value, table),
        _ => {}
    }
}

// Tag 4, the figures, with Y and r.
fn take_figures(value: &[u8], so: SoFar, figures: &mut [u32; FIGURE_COUNT]) -> SoFar
    requires { NoneBroken (population_rules (figures_in value.now)) }
    ensures { (result ≡ figures_to so value.now) × (figures.new ≡ figures_in value.now) }
{
    values::read_figures(value, figures);
    match curve::population(figures) {
        Ok(Participation { population, rate }) => SoFar {
            population,
            rate,
            ..so
        },
        // Figures that were judged are not refused.
        Err(_) => so,
    }
}

// Tag 6, a result: it joins those of the latest student.
fn take_result(
    value: &[u8],
    so: SoFar,
    counts: &mut [u8; MOST_STUDENTS],
    results: &mut [u8; RESULTS_BYTES],
) -> SoFar
    requires { ResultRoom so value.now }
    ensures { (result ≡ result_to so)
        × (counts.new ≡ set counts.old (so.far.students - 1) (so.far.latest + 1))
        × (results.new ≡ laid results.old (so.results * result_bytes) value.now) }
{
    counts[so.far.students - 1] = (so.far.latest + 1) as u8;
    lay(results, so.results * RESULT_BYTES, value);
    SoFar {
        results: so.results + 1,
        ..so
    }
}

// A field of a judged file: the numbers, and the buffers beside the score table and the ids.
fn take_field(
    so: SoFar,
    field: Field,
    catalogue: &mut [u8; CATALOGUE_BYTES],
    figures: &mut [u32; FIGURE_COUNT],
    counts: &mut [u8; MOST_STUDENTS],
    results: &mut [u8; RESULTS_BYTES],
) -> SoFar
    requires { Room so field.tag field.value.now }
    ensures { (result ≡ numbers_with so field.entry.tag field.entry.value.now)
        × (rest catalogue.new figures.new counts.new results.new
        ≡ rest_with so field.entry.tag field.entry.value.now (rest catalogue.old figures.old counts.old results.old)) }
{
    let Field { tag, value } = field;
    match Tag::try_from(tag) {
        Ok(Tag::Year) => SoFar {
            year: bytes::word_at(value, 0),
            ..so
        },
        Ok(Tag::Subject) => {
            lay(catalogue, so.far.subjects * ENTRY_BYTES, value);
            so
        }
        Ok(Tag::Figures) => take_figures(value, so, figures),
        Ok(Tag::Student) => {
            counts[so.far.students] = 0;
            so
        }
        Ok(Tag::Result) => take_result(value, so, counts, results),
        Ok(Tag::Score) | Err(_) => so,
    }
}

// All fields of a file that is accepted. The buffers are six parameters: a struct of them is no plainer, for `take_field`, which the loop
// lends it, would promise of each buffer that it stays the same reference, beside what it holds.
pub(crate) fn take(
    file: &[u8],
    catalogue: &mut [u8; CATALOGUE_BYTES],
    table: &mut [u8; TABLE_BYTES],
    figures: &mut [u32; FIGURE_COUNT],
    ids: &mut [u32; MOST_STUDENTS],
    counts: &mut [u8; MOST_STUDENTS],
    results: &mut [u8; RESULTS_BYTES],
) -> SoFar
    requires { verdict_on file.now ≡ accepted tt }
    ensures { Whole file.now
        (lent catalogue.old table.old figures.old ids.old counts.old results.old) result
        (lent catalogue.new table.new figures.new ids.new counts.new results.new) }
{
    let mut so = SoFar::default();
    let mut at = 0;
    // The next place is past the field's value, so this is no `for`.
    while at < file.len() {
        let Some(Head { tag, length }) = heads::head_at(file, at) else {
            // No field of an accepted file is cut short.
            return so;
        };
        let far = so.far;
        let start = at + HEAD_BYTES;
        let end = start + length;
        let value = &file[start..end];
        let field = Field { tag, value };
        take_scores(far, field, table);
        values::note_id(far, field, ids);
        so = take_field(so, field, catalogue, figures, counts, results);
        so.far = order::further(far, tag);
        at = end;
    }
    so
}
