// The slips that the office has met: each is not made.
use crate::pupils::Results;
use crate::{pupils, saying};
use paper::limits::{BAND_COUNT, MOST_ENTRY, TALLY_COUNT};
use paper::refusal::Refusal;
use std::io::Stdout;

// Student 7, whom five highest first, rules after, refuses.
fn seven() -> Results {
    Results::none()
        .with(pupils::ENGLISH, b'B', 70)
        .with(pupils::METHODS, b'B', 90)
        .with(pupils::BIOLOGY, b'B', 80)
        .with(pupils::CHEMISTRY, b'B', 75)
        .with(pupils::ESSENTIAL, b'A', 0)
        .with(pupils::PHYSICS, b'B', 40)
}

// Student 8, whom dropping the lower of two clashing subjects refuses.
fn eight() -> Results {
    Results::none()
        .with(pupils::ENGLISH, b'B', 50)
        .with(pupils::METHODS, b'B', 90)
        .with(pupils::BIOLOGY, b'B', 80)
        .with(pupils::CHEMISTRY, b'B', 75)
        .with(pupils::ESSENTIAL, b'A', 0)
        .with(pupils::HOSPITALITY, b'B', 0)
}

// Of sets.
fn sets(out: Stdout) {
    let table = pupils::scores();
    pupils::best(
        out,
        b"not five highest first, rules after: student 7 ",
        &table,
        seven(),
    );
    pupils::best(
        out,
        b"not dropping the lower of two clashing: student 8 ",
        &table,
        eight(),
    );
}

// Each band's ATAR.
fn atars(out: Stdout, bands: &[u16]) {
    for band in bands {
        saying::atar(out, *band);
    }
}

// What is asked, the bands and the remainder, or the refusal.
fn placed(out: Stdout, what: &[u8], answer: Result<usize, Refusal>, bands: &[u16]) {
    saying::text(out, what);
    match answer {
        Ok(remainder) => {
            atars(out, bands);
            saying::text(out, b"remainder ");
            saying::number(out, remainder);
            saying::text(out, b"\n");
        }
        Err(x) => saying::refused(out, x),
    }
}

// Split by list order they have 99.95 and 99.90; with the band of the first of them both have 99.95.
fn tied(out: Stdout) {
    let full = [MOST_ENTRY; BAND_COUNT];
    let aggregates = [40000u32, 40000, 30000];
    let mut bands = [0u16; 3];
    let answer = bands::place(&aggregates, &full, 2000, &mut bands);
    placed(
        out,
        b"not splitting tied students, by direct count: ",
        answer,
        &bands,
    );
    let mut ranks = [0u32; 3];
    let mut percentiles = [0u32; 3];
    let mut others = [0u16; 3];
    let mut counts = [0u32; TALLY_COUNT];
    let again = bands::rank_and_place(
        &aggregates,
        &full,
        2000,
        &mut ranks,
        &mut percentiles,
        &mut others,
        &mut counts,
    );
    placed(
        out,
        b"not splitting tied students, in one call with their ranks: ",
        again,
        &others,
    );
}

// Half a place in each band. Rounded up each is one, and the student has 99.95; rounded down each is none, and the student is left.
fn halves(out: Stdout) {
    let full = [MOST_ENTRY; BAND_COUNT];
    let aggregates = [40000u32];
    let mut bands = [0u16; 1];
    let answer = bands::place(&aggregates, &full, 1000, &mut bands);
    placed(out, b"not rounding places per band: ", answer, &bands);
}

// At r=7500 a is 0: the entries of bands 0 and 1. Divided by a² the first of them has no value.
fn undivided(out: Stdout) {
    let figures = [0u32, 10000, 0, 0, 0, 0, 7500, 0, 0, 0];
    let mut table = [0u32; BAND_COUNT];
    let answer = curve::curve(&figures, &mut table);
    saying::text(out, b"not dividing by 0 at r=7500: ");
    if let Err(x) = answer {
        saying::refused(out, x);
        return;
    }
    saying::number(out, table[0]);
    saying::text(out, b" ");
    saying::number(out, table[1]);
    saying::text(out, b"\n");
}

pub(crate) fn run(out: Stdout) {
    sets(out);
    tied(out);
    undivided(out);
    halves(out);
}
