// The row filler: a subject's row is lent on as its own part of the table.
ghost use Rattle.std.specs.Prelude.{◌≡◌, length, replicate};
ghost use Rattle.paper.specs.Limits.{missing_byte};
ghost use Rattle.scores.specs.Rows.{cleared, stored};

use crate::slots;
use crate::slots::{Raw, Scaled};
use paper::bytes;
use paper::limits::{MISSING_BYTE, ROW_BYTES};

// Fills a row, every slot missing.
fn fill_row(row: &mut [u8])
    ensures { row.new ≡ replicate (length row.old) missing_byte }
{
    row.fill(MISSING_BYTE);
}

// Every slot of the subject's row missing; the table as it was where there is no such row.
pub fn clear(table: &mut [u8], subject: usize)
    ensures { table.new ≡ cleared table.old subject }
{
    // By a quotient: the bytes before any subject at all could wrap.
    if subject < table.len() / ROW_BYTES {
        let start = ROW_BYTES * subject;
        fill_row(&mut table[start..start + ROW_BYTES]);
    }
}

// The score in the slot; the table as it was where there is no such row or slot.
pub fn store(table: &mut [u8], subject: usize, raw: Raw, score: Scaled)
    ensures { table.new ≡ stored table.old subject raw.0 score.0 }
{
    if slots::has_slot(table.len(), subject, raw) {
        let start = ROW_BYTES * subject;
        let at = slots::in_row(raw);
        bytes::put_long(&mut table[start..start + ROW_BYTES], at, score.0);
    }
}
