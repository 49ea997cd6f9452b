// The judging pass: a file is judged field by field, and no lent buffer is written.
ghost use Rattle.std.specs.Prelude.{◌≡◌, ℕ, ◌≤◌, List, length};
ghost use Rattle.paper.specs.Limits.{most_subjects};
ghost use Rattle.paper.specs.Bytes.{byte, word};
ghost use Rattle.paper.specs.Rulings.{◌at◌, number_of, judged};
ghost use Rattle.paper.specs.Refusals.{fault};
ghost use Rattle.paper.specs.Promises.{said};
ghost use Rattle.held.specs.Held.{Held};
ghost use Rattle.held.specs.Judging.{year_rules, subject_rules, score_rules, figures_rules, student_rules, value_rules};
ghost use Rattle.cohort.specs.Inner.{verdict_on, field_of, Marks, Seen};
ghost use Rattle.cohort.specs.InnerValues.{nine_or_ten, Slotted, slot_place, is_marked, marks_with};

use crate::values::{self, Field};
use catalogue::entries;
use fields::heads::{HEAD_BYTES, Head};
use fields::order::Far;
use fields::tags::Tag;
use fields::{heads, order};
use paper::bytes;
use paper::limits::{
    FIGURE_COUNT, LEAST_YEAR, MOST_RESULTS, MOST_SLOTS, MOST_STUDENTS, MOST_YEAR, SLOTS, TOP_SCORE,
};
use paper::refusal::Refusal;

// What is noted of the fields before: the slots that have their score, one byte to a slot, and the ids.
#[derive(Drop)]
struct Noted {
    marks: [u8; MOST_SLOTS],
    ids: [u32; MOST_STUDENTS],
}

// Tag 1, the year.
fn judge_year(place: usize, value: &[u8]) -> Result<(), Refusal>
    ensures { said result ≡ judged (year_rules value.now place) tt }
{
    if !(LEAST_YEAR..=MOST_YEAR).contains(&u64::from(bytes::word_at(value, 0))) {
        return Err(Refusal::WrongYear(place));
    }
    Ok(())
}

// Tag 2, a catalogue entry.
fn judge_subject(place: usize, value: &[u8]) -> Result<(), Refusal>
    ensures { said result ≡ judged (subject_rules value.now place) tt }
{
    if entries::is_outside(entries::entry_at(value, 0)) {
        return Err(Refusal::WrongSubject(place));
    }
    Ok(())
}

// The place of a slot in the marks, one byte to a slot.
fn slot_place(subject: usize, slot: u8) -> usize
    requires { Slotted subject slot }
    ensures { result ≡ slot_place subject slot }
{
    subject * SLOTS + (usize::from(slot) - 1)
}

// Whether a slot has its score: it is marked.
fn is_given(marks: &[u8; MOST_SLOTS], subject: usize, slot: u8) -> bool
    requires { Slotted subject slot }
    ensures { result ≡ is_marked marks.now subject slot }
{
    marks[slot_place(subject, slot)] != 0
}

// Marks the slot of a score, tag 3.
fn mark(field: Field, marks: &mut [u8; MOST_SLOTS])
    requires { field.tag ≡ 3 → Slotted (word field.value.now 0) (byte field.value.now 2) }
    ensures { marks.new ≡ marks_with field.entry.tag field.entry.value.now marks.old }
{
    if let Ok(Tag::Score) = Tag::try_from(field.tag) {
        let subject = usize::from(bytes::word_at(field.value, 0));
        let place = slot_place(subject, bytes::byte_at(field.value, 2));
        marks[place] = 1;
    }
}

// Tag 3, a score, by the subjects and the marks before it.
fn judge_score(
    place: usize,
    value: &[u8],
    subjects: usize,
    marks: &[u8; MOST_SLOTS],
) -> Result<(), Refusal>
    requires { subjects ≤ most_subjects }
    ensures { (table : List ℕ) → Marks table marks.now
        → said result ≡ judged (score_rules subjects table value.now place) tt }
{
    let subject = usize::from(bytes::word_at(value, 0));
    if subjects <= subject {
        return Err(Refusal::WrongSubject(place));
    }
    let slot = bytes::byte_at(value, 2);
    if !(1..=SLOTS).contains(&usize::from(slot)) || TOP_SCORE < bytes::long_at(value, 3) {
        return Err(Refusal::WrongScore(place));
    }
    if is_given(marks, subject, slot) {
        return Err(Refusal::Again(place));
    }
    Ok(())
}

// 9 or 10, at the field's offset. Ten figures are refused for nothing else: `nine-or_ten` (proofs/Populated.antt).
fn moved(x: Refusal, place: usize) -> Refusal
    ensures { fault result ≡ nine_or_ten (number_of (fault x)) at place }
{
    match x {
        Refusal::WrongRate(_) => Refusal::WrongRate(place),
        _ => Refusal::WrongPopulation(place),
    }
}

// Tag 4, the figures Q16..Q20, E16..E20.
fn judge_figures(place: usize, value: &[u8]) -> Result<(), Refusal>
    ensures { said result ≡ judged (figures_rules value.now place) tt }
{
    let mut figures = [0; FIGURE_COUNT];
    values::read_figures(value, &mut figures);
    curve::population(&figures).map_err(|x| moved(x, place))?;
    Ok(())
}

// Tag 5, a student, by the ids before it.
fn judge_student(place: usize, value: &[u8], ids: &[u32]) -> Result<(), Refusal>
    ensures { said result ≡ judged (student_rules ids.now value.now place) tt }
{
    if ids.contains(&bytes::long_at(value, 0)) {
        return Err(Refusal::Again(place));
    }
    Ok(())
}

// The values of a field, by what is noted.
fn judge_values(place: usize, field: Field, far: Far, noted: &Noted) -> Result<(), Refusal>
    requires { (far.subjects ≤ most_subjects) × (far.students ≤ length noted.now.ids) }
    ensures { (held : Held) → Seen far held noted.now.marks noted.now.ids
        → said result ≡ judged (value_rules held (field_of field.entry.tag field.entry.value.now) place) tt }
{
    let Field { tag, value } = field;
    match Tag::try_from(tag) {
        Ok(Tag::Year) => judge_year(place, value),
        Ok(Tag::Subject) => judge_subject(place, value),
        Ok(Tag::Score) => judge_score(place, value, far.subjects, &noted.marks),
        Ok(Tag::Figures) => judge_figures(place, value),
        Ok(Tag::Student) => judge_student(place, value, &noted.ids[..far.students]),
        // Results are judged with their student.
        Ok(Tag::Result) | Err(_) => Ok(()),
    }
}

// All fields, and the end: for 1 and 2 by how far the file is read, for its values by what is noted.
pub(crate) fn judge(file: &[u8]) -> Result<(), Refusal>
    ensures { said result ≡ verdict_on file.now }
{
    let mut noted = Noted {
        marks: [0; MOST_SLOTS],
        ids: [0; MOST_STUDENTS],
    };
    let mut far = Far::default();
    let mut at = 0;
    // The next place is past the field's value, so this is no `for`.
    while at < file.len() {
        let Some(Head { tag, length }) = heads::head_at(file, at) else {
            return Err(Refusal::Malformed(at));
        };
        order::judge(MOST_RESULTS, far, tag, length, at)?;
        let start = at + HEAD_BYTES;
        let end = start + length;
        let value = &file[start..end];
        let field = Field { tag, value };
        judge_values(at, field, far, &noted)?;
        mark(field, &mut noted.marks);
        values::note_id(far, field, &mut noted.ids);
        far = order::further(far, tag);
        at = end;
    }
    order::judge_end(far, file.len())
}
