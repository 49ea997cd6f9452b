// The lines of the office's listing.
#![tactic(auto)]

ghost use Rattle.paper.specs.Rulings.{number_of, place_of};
ghost use Rattle.paper.specs.Refusals.{fault};
ghost use Rattle.listing.specs.Lines.{Shows, cohort_line, student_line, refused_line, file_line};

use crate::writing::Line;
use paper::refusal::Refusal;

pub mod writing;

// The cohort: its students, those who are eligible, the remainder.
pub fn cohort_line(students: u32, eligible: u32, remainder: u32) -> Line
    ensures { Shows result (cohort_line students eligible remainder) }
{
    Line::new()
        .text(b"cohort ")
        .number(u64::from(students))
        .text(b" eligible ")
        .number(u64::from(eligible))
        .text(b" remainder ")
        .number(u64::from(remainder))
        .text(b"\n")
}

// A student with an aggregate: in hundredths, the percentile in thousandths.
pub fn student_line(id: u32, aggregate: u32, rank: u32, percentile: u32, band: u16) -> Line
    ensures { Shows result (student_line id aggregate rank percentile band) }
{
    Line::new()
        .number(u64::from(id))
        .text(b" ")
        .hundredths(u64::from(aggregate))
        .text(b" ")
        .number(u64::from(rank))
        .text(b" ")
        .thousandths(u64::from(percentile))
        .text(b" ")
        .atar(band)
        .text(b"\n")
}

// A refused student, by the number and the place of the refusal.
pub fn refused_line(id: u32, number: u8, place: usize) -> Line
    ensures { Shows result (refused_line id number place) }
{
    Line::new()
        .number(u64::from(id))
        .text(b" ")
        .refusal(number, place)
}

// A refused file.
pub fn file_line(refusal: Refusal) -> Line
    ensures { Shows result (file_line (number_of (fault refusal)) (place_of (fault refusal))) }
{
    Line::new().refusal(refusal.number(), refusal.place())
}
