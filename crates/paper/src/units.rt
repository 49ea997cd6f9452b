// The parts of one in which the paper counts: aggregates in hundredths, percentiles in thousandths, scores and rates in ten-thousandths,
// participation in millionths.
pub const HUNDREDTHS: u64 = 100;

pub const THOUSANDTHS: u64 = 1000;

pub const TEN_THOUSANDTHS: u64 = 10000;

pub const MILLIONTHS: u64 = 1000000;
