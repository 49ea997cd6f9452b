// The row of first scores. It is lent on as a table of one row to the row filler.
ghost use Rattle.std.specs.Prelude.{◌≡◌, ◌<◌, length};
ghost use Rattle.scores.specs.Rows.{row_of, missing_row};
ghost use Rattle.firsts.specs.Row.{asked, slot_for, row_for};
ghost use Rattle.firsts.specs.InnerAmong.{score_among};
ghost use Rattle.catalogue.specs.Kinds.{number};
ghost use Rattle.initial.specs.Inner.{Writable};

use catalogue::kinds::Kind;
use paper::limits::{SCORE_PARTS, SLOTS, TOP_SCORE};
use paper::rounding;
use scores::rows;
use scores::slots::{Raw, Scaled};

// The slots of Applied results, from E to A.
const APPLIED_SLOTS: [u8; 5] = [10, 30, 50, 70, 90];

// How many counts are lent for the kind.
pub(crate) fn asked(kind: Kind) -> usize
    ensures { result ≡ asked (number kind) }
{
    match kind {
        Kind::General | Kind::Extension | Kind::ExternalExamination => SLOTS,
        Kind::Applied => APPLIED_SLOTS.len(),
        Kind::ShortCourse | Kind::Vet => 0,
    }
}

// The slot of result j: 10, 30, 50, 70, 90 for Applied, and 1 to 100 for General.
fn slot_for(kind: Kind, j: usize) -> Raw
    requires { j < asked (number kind) }
    ensures { result.0 ≡ slot_for (number kind) j }
{
    match kind {
        Kind::Applied => Raw(APPLIED_SLOTS[j]),
        _ => Raw((j + 1) as u8),
    }
}

// Writes the score of each result, with what is below it summed on the way.
fn write(kind: Kind, counts: &[u32], total: u64, row: &mut [u8])
    requires { Writable (number kind) counts.now total row.old × (0 < total) × (row.old ≡ missing_row) }
    ensures { row.new ≡ row_of (score_among (number kind) counts.now (length counts.now)) }
{
    let mut below: u64 = 0;
    for (j, n) in counts.iter().enumerate() {
        let count = u64::from(*n);
        let score = rounding::nearest(u64::from(TOP_SCORE) * (count + 2 * below), 2 * total);
        rows::store(row, 0, slot_for(kind, j), Scaled(score as u32));
        below += count;
    }
}

// Fills the row, whatever it held.
pub(crate) fn fill(kind: Kind, counts: &[u32], total: u64, row: &mut [u8])
    requires { Writable (number kind) counts.now total row.old }
    ensures { row.new ≡ row_for (number kind) counts.now }
{
    rows::clear(row, 0);
    match kind {
        Kind::Vet => rows::store(row, 0, Raw(1), Scaled(50 * SCORE_PARTS)),
        _ if 0 < total => write(kind, counts, total, row),
        _ => {}
    }
}
