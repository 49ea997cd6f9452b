// A whole file to its listing.
#![tactic(auto)]

ghost use Rattle.std.specs.Prelude.{◌≡◌, length};
ghost use Rattle.curve.specs.Curve.{table_of};
ghost use Rattle.printed.specs.Sizes.{text_bytes};
ghost use Rattle.printed.specs.Report.{outcome, listed, text_of};
ghost use Rattle.outcomes.specs.Inner.{students_in};
ghost use Rattle.lines.specs.Inner.{Put};
ghost use Rattle.report.specs.Inner.{listed_noted, Ready, Read};
ghost use Rattle.printed.specs.Promise.{Promise};

use held::Summary;
use paper::limits::{
    CATALOGUE_BYTES, ENTRY_BYTES, FIGURE_COUNT, MOST_STUDENTS, RESULTS_BYTES, ROW_BYTES,
    TABLE_BYTES,
};
use paper::refusal::Refusal;

mod placing;

// The bytes of a lent text buffer.
pub const TEXT_BYTES: usize = 65536;

// Ranks and places the eligible, and lists the cohort: its line, then a line per student. Answers where the text ends.
fn list_noted(
    summary: Summary,
    ids: &[u32],
    numbers: &[u8],
    places: &[u8],
    aggregates: &[u32],
    text: &mut [u8],
) -> usize
    requires { Ready summary.rate summary.population ids.now numbers.now places.now aggregates.now text.old }
    ensures { Put text.old text.new 0 result
        (listed_noted ids.now numbers.now places.now aggregates.now (table_of summary.rate) summary.population) }
{
    let n = aggregates.len();
    // Columns, and no array of structs: what ranks and places them fills a slice of numbers each.
    let mut ranks = [0u32; MOST_STUDENTS];
    let mut percentiles = [0u32; MOST_STUDENTS];
    let mut bands = [0u16; MOST_STUDENTS];
    let remainder = placing::place(
        aggregates,
        summary.rate,
        summary.population,
        &mut ranks[..n],
        &mut percentiles[..n],
        &mut bands[..n],
    );
    let line = listing::cohort_line(ids.len() as u32, n as u32, remainder as u32);
    let start = lines::writing::append(text, 0, line);
    let rest = &mut text[start..];
    start
        + lines::lines(
            ids,
            numbers,
            places,
            aggregates,
            &ranks,
            &percentiles,
            &bands,
            rest,
        )
}

// Lists a cohort that was read: each student's outcome is noted. Answers where the text ends.
fn list_read(
    summary: Summary,
    catalogue: &[u8],
    table: &[u8],
    ids: &[u32],
    results: &[u8],
    counts: &mut [u8],
    text: &mut [u8],
) -> usize
    requires { Read summary.rate summary.population catalogue.now ids.now counts.old results.now text.old }
    ensures { Put text.old text.new 0 result
        (listed (outcome catalogue.now table.now summary.year) (table_of summary.rate) summary.population
        (students_in (length counts.old) ids.now counts.old results.now)) }
{
    let students = counts.len();
    let year = u64::from(summary.year);
    let mut aggregates = [0u32; MOST_STUDENTS];
    let mut places = [0u8; MOST_STUDENTS];
    let n = outcomes::collect(
        catalogue,
        table,
        year,
        results,
        counts,
        &mut aggregates,
        &mut places[..students],
    );
    // `collect` has left there the numbers of the refusals.
    let numbers = counts;
    list_noted(
        summary,
        ids,
        numbers,
        &places[..students],
        &aggregates[..n],
        text,
    )
}

// Lists a file; answers where the text ends.
fn list_file(file: &[u8], text: &mut [u8]) -> usize
    requires { length text.old ≡ text_bytes }
    ensures { Put text.old text.new 0 result (text_of file.now) }
{
    let mut catalogue = [0u8; CATALOGUE_BYTES];
    let mut table = [0u8; TABLE_BYTES];
    let mut figures = [0u32; FIGURE_COUNT];
    let mut ids = [0u32; MOST_STUDENTS];
    let mut counts = [0u8; MOST_STUDENTS];
    let mut results = [0u8; RESULTS_BYTES];
    let read = cohort::read(
        file,
        &mut catalogue,
        &mut table,
        &mut figures,
        &mut ids,
        &mut counts,
        &mut results,
    );
    match read {
        Err(x) => lines::writing::append(text, 0, listing::file_line(x)),
        Ok(summary) => {
            let c = ENTRY_BYTES * summary.subjects;
            let t = ROW_BYTES * summary.subjects;
            let students = summary.students;
            list_read(
                summary,
                &catalogue[..c],
                &table[..t],
                &ids[..students],
                &results,
                &mut counts[..students],
                text,
            )
        }
    }
}

// The listing of a file, in a lent text buffer of 65536 bytes. A refusal writes nothing.
pub fn report(file: &[u8], text: &mut [u8]) -> Result<usize, Refusal>
    ensures { Promise file.now text.old result text.new }
{
    if text.len() != TEXT_BYTES {
        return Err(Refusal::WrongLength);
    }
    Ok(list_file(file, text))
}
