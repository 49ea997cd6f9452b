// Catalogue entries. Past the end of the catalogue every part of an entry is 0.
ghost use Rattle.std.specs.Prelude.{◌≡◌, ◌<◌};
ghost use Rattle.catalogue.specs.Kinds.{number};
ghost use Rattle.catalogue.specs.Catalogue.{subjects, entry_at, strand_fits, level_fits, identity_fits, outside, first_outside};

use crate::kinds::{ADVANCED_DIPLOMA, CERTIFICATE_I, Kind, MATHEMATICS};
use paper::bytes;
use paper::limits::ENTRY_BYTES;

#[derive(Clone, Copy)]
pub struct Entry {
    pub kind: u8,
    pub strand: u8,
    pub level: u8,
    pub identity: u16,
}

// Entry i of a catalogue.
#[tactic(auto, using(crate::proofs::Read::entry_read, paper::proofs::Written::record_within))]
pub fn entry_at(catalogue: &[u8], i: usize) -> Entry
    ensures { result ≡ entry_at catalogue.now i }
{
    let at = bytes::record_at(catalogue, ENTRY_BYTES, i);
    Entry {
        kind: bytes::byte_at(catalogue, at),
        strand: bytes::byte_at(catalogue, at + 1),
        level: bytes::byte_at(catalogue, at + 2),
        identity: bytes::word_at(catalogue, at + 3),
    }
}

// The same of an entry that is there: no byte is past the end.
#[tactic(auto, unfolding(paper::specs::Bytes::word))]
fn known_entry(catalogue: &[u8], i: usize) -> Entry
    requires { i < subjects catalogue.now }
    ensures { result ≡ entry_at catalogue.now i }
{
    let at = ENTRY_BYTES * i;
    Entry {
        kind: catalogue[at],
        strand: catalogue[at + 1],
        level: catalogue[at + 2],
        identity: u16::from_be_bytes([catalogue[at + 3], catalogue[at + 4]]),
    }
}

// The tests of an entry of this kind, which `is_outside` reads once for all three: each asks that it is the entry's.
fn strand_fits(kind: Kind, entry: Entry) -> bool
    requires { number kind ≡ entry.kind }
    ensures { result ≡ strand_fits entry }
{
    match kind {
        Kind::ShortCourse | Kind::Vet => entry.strand == 0,
        _ => entry.strand <= MATHEMATICS,
    }
}

fn level_fits(kind: Kind, entry: Entry) -> bool
    requires { number kind ≡ entry.kind }
    ensures { result ≡ level_fits entry }
{
    match kind {
        Kind::Vet => CERTIFICATE_I <= entry.level && entry.level <= ADVANCED_DIPLOMA,
        _ => entry.level == 0,
    }
}

fn identity_fits(kind: Kind, entry: Entry) -> bool
    requires { number kind ≡ entry.kind }
    ensures { result ≡ identity_fits entry }
{
    match kind {
        Kind::General | Kind::ExternalExamination => 1 <= entry.identity,
        _ => entry.identity == 0,
    }
}

// Whether an entry is outside its ranges.
#[tactic(auto, using(crate::proofs::Ranges::kind_known), unfolding(crate::specs::Catalogue::outside))]
pub fn is_outside(entry: Entry) -> bool
    ensures { result ≡ outside entry }
{
    let Ok(kind) = Kind::try_from(entry.kind) else {
        return true;
    };
    !strand_fits(kind, entry) || !level_fits(kind, entry) || !identity_fits(kind, entry)
}

// The first entry outside its ranges; the number of subjects where none is, and no Option: the contract speaks of that number.
pub fn first_outside(catalogue: &[u8]) -> usize
    ensures { result ≡ first_outside catalogue.now }
{
    let subjects = catalogue.len() / ENTRY_BYTES;
    for i in 0..subjects {
        if is_outside(known_entry(catalogue, i)) {
            return i;
        }
    }
    subjects
}
