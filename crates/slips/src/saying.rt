// What is printed: texts, numbers with decimals, refusals.
use paper::limits::BAND_STEP;
use paper::refusal::Refusal;
use std::fmt::Display;
use std::io::{Print, Stdout};

pub(crate) fn text(out: Stdout, text: &[u8]) {
    let _ = out.write_all(text);
}

pub(crate) fn number(out: Stdout, n: impl Display + Drop) {
    let _ = out.print(n);
}

// Two decimals of a number of hundredths.
pub(crate) fn hundredths(out: Stdout, n: u32) {
    let _ = out.print(format_args!("{}.{:02}", n / 100, n % 100));
}

// Three decimals of a number of thousandths.
pub(crate) fn thousandths(out: Stdout, n: u32) {
    let _ = out.print(format_args!("{}.{:03}", n / 1000, n % 1000));
}

// The ATAR of a band, and a space.
pub(crate) fn atar(out: Stdout, band: u16) {
    hundredths(out, BAND_STEP as u32 * u32::from(band));
    text(out, b" ");
}

// The listing's line of a refusal.
pub(crate) fn refused(out: Stdout, x: Refusal) {
    text(out, listing::file_line(x).as_bytes());
}
