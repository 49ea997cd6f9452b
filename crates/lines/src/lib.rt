// The lines of the students, from what is noted of each.
#![tactic(auto)]

ghost use Rattle.std.specs.Prelude.{◌*◌, ◌≤◌, length};
ghost use Rattle.listing.specs.Lines.{line_bytes};
ghost use Rattle.printed.specs.InnerCohorts.{columns};
ghost use Rattle.lines.specs.Inner.{lines_noted, Listable, Put};

use paper::limits::MOST_STUDENTS;

pub mod writing;

// Puts the lines of all students into the text, and answers where they end. What is noted stands in columns, and in no slice of structs: what
// fills ranks, percentiles and bands is the C interface's too (`shtegomir_rank`, `shtegomir_place_direct`), to which C lends arrays of numbers.
pub fn lines(
    ids: &[u32],
    numbers: &[u8],
    places: &[u8],
    aggregates: &[u32],
    ranks: &[u32; MOST_STUDENTS],
    percentiles: &[u32; MOST_STUDENTS],
    bands: &[u16; MOST_STUDENTS],
    text: &mut [u8],
) -> usize
    requires { Listable ids.now numbers.now places.now text.old }
    ensures { Put text.old text.new 0 result
        (lines_noted (columns aggregates.now ranks.now percentiles.now bands.now) 0 ids.now numbers.now places.now)
        × (result ≤ line_bytes * length ids.now) }
{
    // How many before this student are eligible: its place in the columns, if it is.
    let mut j = 0;
    let mut end = 0;
    for ((&id, &number), &place) in ids.iter().zip(numbers).zip(places) {
        let line = if number == 0 {
            // Nothing asks that each eligible student have an aggregate: past them it is 0.
            let aggregate = aggregates.get(j).copied().unwrap_or(0);
            let line = listing::student_line(id, aggregate, ranks[j], percentiles[j], bands[j]);
            j += 1;
            line
        } else {
            listing::refused_line(id, number, usize::from(place))
        };
        end = writing::append(text, end, line);
    }
    end
}
