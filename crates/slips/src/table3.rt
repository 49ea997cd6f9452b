// Table 3 of the technical document, of 51493 students: its rows, and the others between Lauren and Anna.
use crate::saying;
use std::io::Stdout;

// The students of the table.
const STUDENTS: usize = 51493;

// Polyranks in hundredths: 0.12 to 96.25, again and again, so that they are above Anna's and below Lauren's.
fn between(values: &mut [u32; STUDENTS]) {
    for (i, value) in values.iter_mut().enumerate() {
        *value = 12 + (i % 9614) as u32;
    }
}

// Those of the table's students: seven at the front, two at the end.
fn named(values: &mut [u32; STUDENTS]) {
    values[0] = 9872;
    values[1] = 9730;
    values[2] = 9665;
    values[3] = 9665;
    values[4] = 9642;
    values[5] = 9630;
    values[6] = 9626;
    values[STUDENTS - 2] = 11;
    values[STUDENTS - 1] = 8;
}

// A row: the student, the polyrank, the rank and the percentile.
fn row(out: Stdout, name: &[u8], value: u32, rank: u32, percentile: u32) {
    saying::text(out, b"Table 3: ");
    saying::text(out, name);
    saying::text(out, b" ");
    saying::hundredths(out, value);
    saying::text(out, b" rank ");
    saying::number(out, rank);
    saying::text(out, b" percentile ");
    saying::thousandths(out, percentile);
    saying::text(out, b"\n");
}

pub(crate) fn run(out: Stdout) {
    let mut values = [0u32; STUDENTS];
    let mut ranks = [0u32; STUDENTS];
    let mut percentiles = [0u32; STUDENTS];
    between(&mut values);
    named(&mut values);
    let answer = ranks::ranks(&values, &mut ranks, &mut percentiles);
    if let Err(x) = answer {
        saying::refused(out, x);
        return;
    }
    row(out, b"Sophie", values[0], ranks[0], percentiles[0]);
    row(out, b"George", values[1], ranks[1], percentiles[1]);
    row(out, b"Wei", values[2], ranks[2], percentiles[2]);
    row(out, b"Javier", values[3], ranks[3], percentiles[3]);
    row(out, b"Andrew", values[4], ranks[4], percentiles[4]);
    row(out, b"Linh", values[5], ranks[5], percentiles[5]);
    row(out, b"Lauren", values[6], ranks[6], percentiles[6]);
    row(
        out,
        b"Anna",
        values[STUDENTS - 2],
        ranks[STUDENTS - 2],
        percentiles[STUDENTS - 2],
    );
    row(
        out,
        b"Nathan",
        values[STUDENTS - 1],
        ranks[STUDENTS - 1],
        percentiles[STUDENTS - 1],
    );
}
