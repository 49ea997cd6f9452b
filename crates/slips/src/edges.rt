// Spans of four and five years differ, whichever years they are; English C and D differ; score 1000000 and 1000001 differ; so do sums that end in 49 and
// in 50, and the set is that of the greatest unrounded sum.
use crate::pupils;
use crate::pupils::{Results, TABLE};
use paper::limits::{SCORE_PARTS, TOP_SCORE};
use scores::rows;
use scores::slots::{Raw, Scaled};
use std::io::Stdout;

// Six Generals: five of 2021 at 50.00, English first; and Geography.
fn six(letter: u8, number: u8, year: u16) -> Results {
    Results::none()
        .with(pupils::ENGLISH, letter, 50)
        .with(pupils::METHODS, b'B', 50)
        .with(pupils::BIOLOGY, b'B', 50)
        .with(pupils::CHEMISTRY, b'B', 50)
        .with(pupils::PHYSICS, b'B', 50)
        .dated(pupils::GEOGRAPHY, b'B', number, year)
}

// English of a year, and four Generals of 2013 to 2016, all at 50.00; and one more of a year at 90.00.
fn mature(english: u16, subject: u8, year: u16) -> Results {
    Results::none()
        .dated(pupils::ENGLISH, b'C', 50, english)
        .dated(pupils::METHODS, b'B', 50, 2013)
        .dated(pupils::BIOLOGY, b'B', 50, 2014)
        .dated(pupils::CHEMISTRY, b'B', 50, 2015)
        .dated(pupils::PHYSICS, b'B', 50, 2016)
        .dated(subject, b'B', 90, year)
}

// Who has results of many years.
fn spans(out: Stdout, table: &[u8; TABLE]) {
    pupils::best(
        out,
        b"a span of four, 2017 to 2021: ",
        table,
        six(b'C', 90, 2017),
    );
    pupils::best(
        out,
        b"a span of five, 2016 to 2021: ",
        table,
        six(b'C', 90, 2016),
    );
    pupils::best(
        out,
        b"2012 to 2016, and Geography of 1990: ",
        table,
        mature(2012, pupils::GEOGRAPHY, 1990),
    );
    pupils::best(
        out,
        b"2011 to 2016, and Geography of 1990: ",
        table,
        mature(2011, pupils::GEOGRAPHY, 1990),
    );
    pupils::best(
        out,
        b"English of 1990, and 2013 to 2017: ",
        table,
        mature(1990, pupils::GEOGRAPHY, 2017),
    );
    pupils::best(
        out,
        b"2012 to 2016, and English again in 2021: ",
        table,
        mature(2012, pupils::ENGLISH, 2021),
    );
}

// A number in Geography scores this.
fn set(table: &mut [u8; TABLE], number: u8, score: u32) {
    rows::store(table, 7, Raw(number), Scaled(score));
}

// Geography 50 scores a little more than the others' 50.00: at 50.0049 the first five would be chosen by rounded sums.
fn decimals(out: Stdout, table: &mut [u8; TABLE]) {
    set(table, 50, 50 * SCORE_PARTS + 49);
    pupils::best(out, b"a sum of 250.0049: ", table, six(b'C', 50, 2021));
    set(table, 50, 50 * SCORE_PARTS + 50);
    pupils::best(out, b"a sum of 250.0050: ", table, six(b'C', 50, 2021));
}

pub(crate) fn run(out: Stdout) {
    let mut table = pupils::scores();
    spans(out, &table);
    pupils::best(out, b"English C: ", &table, six(b'C', 50, 2021));
    pupils::best(out, b"English D: ", &table, six(b'D', 50, 2021));
    pupils::best(out, b"score 1000000: ", &table, six(b'C', 100, 2021));
    set(&mut table, 100, TOP_SCORE + 1);
    pupils::best(out, b"score 1000001: ", &table, six(b'C', 100, 2021));
    decimals(out, &mut table);
}
