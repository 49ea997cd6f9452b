// Results by their position, where they are lent.
ghost use Rattle.std.specs.Prelude.{◌≡◌, ◌<◌};
ghost use Rattle.results.specs.Results.{held_in, result_of, subject_of, year_of};

use catalogue::entries;
use catalogue::entries::Entry;
use paper::limits::RESULT_BYTES;

// A result, with the entry of its subject.
#[derive(Clone, Copy)]
pub struct StudentResult {
    pub subject: u16,
    pub letter: u8,
    pub number: u8,
    pub year: u16,
    pub entry: Entry,
}

// Result i, one of those that there are. Each of the three asks that there is: the clause is of i, so that no struct around the bytes could hold it.
pub fn result_at(catalogue: &[u8], results: &[u8], i: usize) -> StudentResult
    requires { i < held_in results.now }
    ensures { result ≡ result_of catalogue.now results.now i }
{
    let at = RESULT_BYTES * i;
    let subject = subject_at(results, i);
    StudentResult {
        subject,
        letter: results[at + 2],
        number: results[at + 3],
        year: year_at(results, i),
        entry: entries::entry_at(catalogue, usize::from(subject)),
    }
}

// Its subject, and its year: of the whole result, and again where two are compared.
#[tactic(auto, unfolding(paper::specs::Bytes::word))]
pub fn subject_at(results: &[u8], i: usize) -> u16
    requires { i < held_in results.now }
    ensures { result ≡ subject_of results.now i }
{
    let at = RESULT_BYTES * i;
    u16::from_be_bytes([results[at], results[at + 1]])
}

#[tactic(auto, unfolding(paper::specs::Bytes::word))]
pub fn year_at(results: &[u8], i: usize) -> u16
    requires { i < held_in results.now }
    ensures { result ≡ year_of results.now i }
{
    let at = RESULT_BYTES * i;
    u16::from_be_bytes([results[at + 4], results[at + 5]])
}
