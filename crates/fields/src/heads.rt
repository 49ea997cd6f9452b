// The field that stands at a place of a file, before its value.
ghost use Rattle.std.specs.Prelude.{◌≡◌};
ghost use Rattle.fields.specs.Inner.{head_at};

use paper::bytes;

// Of a whole field: its tag, any byte until it is judged, and its value's length.
#[derive(Clone, Copy)]
pub struct Head {
    pub tag: u8,
    pub length: usize,
}

// The bytes of a tag and a length.
pub const HEAD_BYTES: usize = 3;

// None where the field is cut short.
#[tactic(auto, using(crate::proofs::Headed::is_cut, crate::proofs::Headed::is_whole))]
pub fn head_at(file: &[u8], place: usize) -> Option<Head>
    ensures { result ≡ head_at file.now place }
{
    // By the room that is left: a place with three bytes and a length more could wrap.
    let room = file.len().checked_sub(HEAD_BYTES)?.checked_sub(place)?;
    let length = usize::from(bytes::word_at(file, place + 1));
    if room < length {
        return None;
    }
    let tag = bytes::byte_at(file, place);
    Some(Head { tag, length })
}
