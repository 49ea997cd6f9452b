// The subjects of the paper's example, and Geography; their scores; students' results.
use crate::saying;
use arrayvec::ArrayVec;
use catalogue::kinds;
use catalogue::kinds::Kind;
use paper::limits::{ENTRY_BYTES, RESULT_BYTES, ROW_BYTES, SCORE_PARTS, SLOTS};
use paper::refusal::Refusal;
use scores::rows;
use scores::slots::{Raw, Scaled};
use sets::BestSet;
use std::io::Stdout;

// Places in the catalogue.
pub(crate) const ENGLISH: u8 = 0;

pub(crate) const METHODS: u8 = 1;

pub(crate) const BIOLOGY: u8 = 2;

pub(crate) const CHEMISTRY: u8 = 3;

pub(crate) const ESSENTIAL: u8 = 4;

pub(crate) const PHYSICS: u8 = 5;

pub(crate) const HOSPITALITY: u8 = 6;

pub(crate) const GEOGRAPHY: u8 = 7;

// Eight subjects: the bytes of their catalogue, and of their scores.
const SUBJECTS: usize = 8;

const CATALOGUE: usize = SUBJECTS * ENTRY_BYTES;

pub(crate) const TABLE: usize = SUBJECTS * ROW_BYTES;

// The last slot of a row.
const LAST_SLOT: u8 = SLOTS as u8;

// The bytes of six results.
const RESULTS: usize = 6 * RESULT_BYTES;

// A subject's kind, strand and identity; its level is 0.
fn subject(catalogue: &mut [u8; CATALOGUE], place: usize, kind: Kind, strand: u8, identity: u8) {
    if place < SUBJECTS {
        catalogue[ENTRY_BYTES * place] = u8::from(kind);
        catalogue[ENTRY_BYTES * place + 1] = strand;
        catalogue[ENTRY_BYTES * place + 4] = identity;
    }
}

// Essential Mathematics and Hospitality are Applied, the others General.
fn catalogue() -> [u8; CATALOGUE] {
    let mut catalogue = [0u8; CATALOGUE];
    subject(&mut catalogue, 0, Kind::General, kinds::ENGLISH, 1);
    subject(&mut catalogue, 1, Kind::General, kinds::MATHEMATICS, 2);
    subject(&mut catalogue, 2, Kind::General, 0, 3);
    subject(&mut catalogue, 3, Kind::General, 0, 4);
    subject(&mut catalogue, 4, Kind::Applied, kinds::MATHEMATICS, 0);
    subject(&mut catalogue, 5, Kind::General, 0, 5);
    subject(&mut catalogue, 6, Kind::Applied, 0, 0);
    subject(&mut catalogue, 7, Kind::General, 0, 6);
    catalogue
}

// Slot j of a General subject scores j.00.
fn general(table: &mut [u8], subject: usize) {
    for slot in 1..=LAST_SLOT {
        rows::store(
            table,
            subject,
            Raw(slot),
            Scaled(SCORE_PARTS * u32::from(slot)),
        );
    }
}

// Essential Mathematics A is 95.00, Hospitality B 60.00.
pub(crate) fn scores() -> [u8; TABLE] {
    let mut table = [255u8; TABLE];
    general(&mut table, 0);
    general(&mut table, 1);
    general(&mut table, 2);
    general(&mut table, 3);
    rows::store(&mut table, 4, Raw(90), Scaled(95 * SCORE_PARTS));
    general(&mut table, 5);
    rows::store(&mut table, 6, Raw(70), Scaled(60 * SCORE_PARTS));
    general(&mut table, 7);
    table
}

// The bytes of up to six results.
#[derive(Drop)]
pub(crate) struct Results {
    bytes: ArrayVec<u8, RESULTS>,
}

impl Results {
    // No results yet.
    pub(crate) fn none() -> Results {
        Results {
            bytes: ArrayVec::new(),
        }
    }

    // And one of a year, where there is room for it.
    pub(crate) fn dated(mut self, subject: u8, letter: u8, number: u8, year: u16) -> Results {
        let [high, low] = year.to_be_bytes();
        let result = [0, subject, letter, number, high, low];
        let _ = self.bytes.try_extend_from_slice(&result);
        self
    }

    // And one of 2021.
    pub(crate) fn with(self, subject: u8, letter: u8, number: u8) -> Results {
        self.dated(subject, letter, number, 2021)
    }
}

// The aggregate and the set, or the refusal.
fn told(out: Stdout, answer: Result<BestSet, Refusal>) {
    match answer {
        Ok(best) => {
            saying::hundredths(out, best.aggregate);
            saying::text(out, b" set ");
            saying::number(out, best.set);
            saying::text(out, b"\n");
        }
        Err(x) => saying::refused(out, x),
    }
}

// What is asked, and the best set in 2021.
pub(crate) fn best(out: Stdout, what: &[u8], table: &[u8; TABLE], results: Results) {
    saying::text(out, what);
    let subjects = catalogue();
    let bytes = results.bytes.as_slice();
    told(out, bestset::best_set(&subjects, table, 2021, bytes));
}
