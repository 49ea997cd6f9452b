// A line at a place of the text.
ghost use Rattle.listing.specs.Lines.{shown};
ghost use Rattle.lines.specs.Inner.{Appendable, Put};

use listing::writing::Line;

// Puts a line into the text, and answers where it ends.
pub fn append(text: &mut [u8], place: usize, line: Line) -> usize
    requires { Appendable line text.old place }
    ensures { Put text.old text.new place result (shown line) }
{
    let bytes = line.as_bytes();
    let end = place + bytes.len();
    text[place..end].copy_from_slice(bytes);
    end
}
