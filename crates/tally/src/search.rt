// The band search.
ghost use Rattle.std.specs.Prelude.{◌≡◌, ◌*◌, ◌≤◌};
ghost use Rattle.paper.specs.Limits.{most_population, top_band, band_count, most_entry};
ghost use Rattle.paper.specs.Words.{◌≤?◌, when◌then◌else◌};
ghost use Rattle.tally.specs.Places.{one_place};
ghost use Rattle.tally.specs.Inner.{Sized};
ghost use Rattle.tally.specs.InnerSearch.{Stands, SearchAt, Reaches};

use paper::limits::{BAND_COUNT, TOP_BAND};
use paper::units::MILLIONTHS;

// One place, where places are Y·F(k).
const ONE_PLACE: u64 = BAND_COUNT as u64 * MILLIONTHS;

// A band, the sum of the table's entries from it on, and its places, unrounded, times 2000000000.
#[derive(Clone, Copy)]
pub struct Reached {
    pub band: usize,
    pub sum: u64,
    pub places: u64,
}

// What gives each band its places: a participation table and Y.
#[derive(Clone, Copy)]
pub struct Places<'a> {
    pub table: &'a [u32],
    pub population: u32,
    ghost sized: { Sized table.now },
    ghost people: { population ≤ most_population },
}

impl Places<'_> {
    // The places of a sum of entries, times 2000000000.
    fn of(&self, sum: u64) -> u64
        requires { sum ≤ band_count * most_entry }
        ensures { result ≡ self.now.population * sum }
    {
        u64::from(self.population) * sum
    }

    // The top band, where a search begins.
    pub fn top(&self) -> Reached
        ensures { (result.band ≡ top_band) × Stands self.now.table.now self.now.population result.band result.sum result.places }
    {
        let sum = u64::from(self.table[TOP_BAND]);
        Reached {
            band: TOP_BAND,
            sum,
            places: self.of(sum),
        }
    }

    // Goes on from a band: the first from there down whose places reach c students, or 0.
    pub fn highest(&self, c: u32, from: Reached) -> Reached
        requires { SearchAt self.now.table.now self.now.population c from.band from.sum from.places }
        ensures { Reaches self.now.table.now self.now.population c result.band result.sum result.places }
    {
        let mut k = from.band;
        let mut sum = from.sum;
        // The loop yields the band by break (docs/DECISIONS.md, "Forms that the paper names").
        let band = loop {
            if k == 0 {
                break 0;
            }
            if fits(c, self.of(sum)) {
                break k;
            }
            k -= 1;
            sum += u64::from(self.table[k]);
        };
        Reached {
            band,
            sum,
            places: self.of(sum),
        }
    }

    // The same, at once where c students fit the band it goes on from.
    pub fn go_on(&self, c: u32, from: Reached) -> Reached
        requires { SearchAt self.now.table.now self.now.population c from.band from.sum from.places }
        ensures { Reaches self.now.table.now self.now.population c result.band result.sum result.places }
    {
        if fits(c, from.places) {
            return from;
        }
        self.highest(c, from)
    }
}

// Whether c students fit the places of a band.
fn fits(c: u32, places: u64) -> bool
    ensures { result ≡ one_place * c ≤? places }
{
    ONE_PLACE * u64::from(c) <= places
}

// Of n students whose C is c, those left over: all, if c doesn't fit the band that is reached, which then is 0.
pub fn left_over(c: u32, places: u64, n: u32) -> usize
    ensures { result ≡ when one_place * c ≤? places then 0 else n }
{
    if fits(c, places) {
        return 0;
    }
    n as usize
}
