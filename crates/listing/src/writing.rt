// A line, and what is written at its end. What it has no room for is left out.
ghost use Rattle.std.specs.Prelude.{◌≡◌, [], ◌∷◌, ◌≤◌, length};
ghost use Rattle.listing.specs.Text.{digit, digits, decimals2, decimals3, atar};
ghost use Rattle.listing.specs.Lines.{file_line, shown};
ghost use Rattle.listing.specs.Inner.{line_of, Adds, ending_bytes};

use paper::limits::BAND_STEP;
use paper::units::{HUNDREDTHS, THOUSANDTHS};

// The bytes that a line has room for.
pub const LINE_BYTES: usize = 64;

// The bytes of the text, then zeros. It is no ArrayVec: a line is copied, and its bytes and its length are public.
#[derive(Clone, Copy)]
pub struct Line {
    pub bytes: [u8; LINE_BYTES],
    pub length: usize,
}

// The highest band whose ATAR is not told as a number.
const LOW_BAND: u16 = 600;

// A line is made of parts and not by `write!`, which answers a Result that no clause shows to be Ok: a line cannot fail.
impl Line {
    pub(crate) fn new() -> Line
        ensures { result ≡ line_of [] }
    {
        Line {
            bytes: [0; LINE_BYTES],
            length: 0,
        }
    }

    // What the line shows.
    #[tactic(auto, using(crate::proofs::Joining::up_to_end))]
    pub fn as_bytes(&self) -> &[u8]
        ensures { result.now ≡ shown self.now }
    {
        let end = self.length.min(LINE_BYTES);
        &self.bytes[..end]
    }

    #[tactic(auto, using(crate::proofs::Joining::with_text))]
    pub(crate) fn text(mut self, text: &[u8]) -> Line
        ensures { Adds self result text.now }
    {
        let start = self.length.min(LINE_BYTES);
        let n = text.len().min(LINE_BYTES - start);
        let end = start + n;
        self.bytes[start..end].copy_from_slice(&text[..n]);
        self.length = end;
        self
    }

    pub(crate) fn number(self, n: u64) -> Line
        ensures { Adds self result (digits n) }
    {
        self.text(itoa::Buffer::new().format(n).as_bytes())
    }

    // The last digit of a number.
    fn digit(self, n: u64) -> Line
        ensures { Adds self result (digit n ∷ []) }
    {
        self.number(n % 10)
    }

    // Two decimals of a number of hundredths.
    pub(crate) fn hundredths(self, n: u64) -> Line
        ensures { Adds self result (decimals2 n) }
    {
        self.number(n / HUNDREDTHS)
            .text(b".")
            .digit(n / 10)
            .digit(n)
    }

    // Three decimals of a number of thousandths.
    pub(crate) fn thousandths(self, n: u64) -> Line
        ensures { Adds self result (decimals3 n) }
    {
        self.number(n / THOUSANDTHS)
            .text(b".")
            .digit(n / 100)
            .digit(n / 10)
            .digit(n)
    }

    // A band's ATAR, each band 0.05.
    pub(crate) fn atar(self, band: u16) -> Line
        ensures { Adds self result (atar band) }
    {
        if band <= LOW_BAND {
            return self.text(b"30.00 or less");
        }
        self.hundredths(BAND_STEP * u64::from(band))
    }

    // How a line of a refusal ends.
    pub(crate) fn refusal(self, number: u8, place: usize) -> Line
        ensures { Adds self result (file_line number place) × (length (file_line number place) ≤ ending_bytes) }
    {
        self.text(b"refused ")
            .number(u64::from(number))
            .text(b" ")
            // std converts no usize to u64 by From.
            .number(place as u64)
            .text(b"\n")
    }
}
