// How far a file is read, and its next field judged for 1, then 2.
ghost use Rattle.std.specs.Prelude.{◌≡◌};
ghost use Rattle.paper.specs.Rulings.{judged};
ghost use Rattle.paper.specs.Promises.{said};
ghost use Rattle.fields.specs.Fields.{length_of};
ghost use Rattle.fields.specs.Order.{further, follows, full, head_rules, end_rules};
ghost use Rattle.fields.specs.Inner.{Countable};
ghost use Rattle.fields.specs.Tags.{byte_of};

use crate::tags::Tag;
use paper::limits::{
    ENTRY_BYTES, FIGURE_BYTES, FIGURE_COUNT, MOST_STUDENTS, MOST_SUBJECTS, RESULT_BYTES, SLOT_BYTES,
};
use paper::refusal::Refusal;

// The last field's tag, 0 before the first field; the numbers of subjects and students, and of the latest student's results. The tag is a
// byte, and no Option<Tag>: the definition `follows` (specs/Order.antt) asks of the last one as a number.
#[derive(Clone, Copy, Default)]
pub struct Far {
    pub last: u8,
    pub subjects: usize,
    pub students: usize,
    pub latest: usize,
}

// With a field of the tag more.
pub fn further(far: Far, tag: u8) -> Far
    requires { Countable far tag }
    ensures { result ≡ further far tag }
{
    let far = Far { last: tag, ..far };
    match Tag::try_from(tag) {
        Ok(Tag::Subject) => Far {
            subjects: far.subjects + 1,
            ..far
        },
        Ok(Tag::Student) => Far {
            students: far.students + 1,
            latest: 0,
            ..far
        },
        Ok(Tag::Result) => Far {
            latest: far.latest + 1,
            ..far
        },
        _ => far,
    }
}

// The bytes of a year, of a score (subject, slot, score), of the figures, of a student's id.
const YEAR_BYTES: usize = 2;

const SCORE_BYTES: usize = 2 + 1 + SLOT_BYTES;

const FIGURES_BYTES: usize = FIGURE_COUNT * FIGURE_BYTES;

const ID_BYTES: usize = 4;

// The bytes of a tag's value.
fn length_of(tag: Tag) -> usize
    ensures { result ≡ length_of (byte_of tag) }
{
    match tag {
        Tag::Year => YEAR_BYTES,
        Tag::Subject => ENTRY_BYTES,
        Tag::Score => SCORE_BYTES,
        Tag::Figures => FIGURES_BYTES,
        Tag::Student => ID_BYTES,
        Tag::Result => RESULT_BYTES,
    }
}

// Whether the tag is in order.
fn follows(last: u8, tag: Tag) -> bool
    ensures { result ≡ follows last (byte_of tag) }
{
    match tag {
        Tag::Year => last == 0,
        Tag::Subject => (1..=2).contains(&last),
        Tag::Score | Tag::Figures => (1..=3).contains(&last),
        Tag::Student => (4..=6).contains(&last),
        Tag::Result => (5..=6).contains(&last),
    }
}

// Whether there may be no more of the tag, with a limit of results to a student.
fn is_full(limit: usize, far: Far, tag: Tag) -> bool
    ensures { result ≡ full limit far (byte_of tag) }
{
    match tag {
        Tag::Subject => MOST_SUBJECTS <= far.subjects,
        Tag::Student => MOST_STUDENTS <= far.students,
        Tag::Result => limit <= far.latest,
        Tag::Year | Tag::Score | Tag::Figures => false,
    }
}

// A field by its tag and its value's length, at a place.
pub fn judge(limit: usize, far: Far, tag: u8, length: usize, place: usize) -> Result<(), Refusal>
    ensures { said result ≡ judged (head_rules limit far tag length place) tt }
{
    let Ok(known) = Tag::try_from(tag) else {
        return Err(Refusal::Malformed(place));
    };
    if length != length_of(known) || !follows(far.last, known) {
        return Err(Refusal::Malformed(place));
    }
    if is_full(limit, far, known) {
        return Err(Refusal::TooMany(place));
    }
    Ok(())
}

// The end of a file, at its length.
pub fn judge_end(far: Far, end: usize) -> Result<(), Refusal>
    ensures { said result ≡ judged (end_rules far end) tt }
{
    if far.last < u8::from(Tag::Figures) {
        return Err(Refusal::Malformed(end));
    }
    Ok(())
}
