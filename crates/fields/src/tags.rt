// The tags of a file's fields.
ghost use Rattle.std.specs.Prelude.{◌≡◌};
ghost use Rattle.fields.specs.Tags.{Names, byte_of};

// The tags, by their bytes.
#[derive(Clone, Copy, Debug, PartialEq, Eq)]
pub enum Tag {
    Year = 1,
    Subject = 2,
    Score = 3,
    Figures = 4,
    Student = 5,
    Result = 6,
}

// A byte that no tag has.
#[derive(Clone, Copy, Debug, PartialEq, Eq)]
pub struct NoTag(pub u8);

// 1 to 6, in the order above. By hand, as that of the kinds: std derives no TryFrom.
impl TryFrom<u8> for Tag {
    type Error = NoTag;

    ghost try_from_gives = { Names };

    fn try_from(byte: u8) -> Result<Tag, NoTag> {
        match byte {
            1 => Ok(Tag::Year),
            2 => Ok(Tag::Subject),
            3 => Ok(Tag::Score),
            4 => Ok(Tag::Figures),
            5 => Ok(Tag::Student),
            6 => Ok(Tag::Result),
            _ => Err(NoTag(byte)),
        }
    }
}

// Back to the byte that stands in a file.
impl From<Tag> for u8 {
    ghost from_gives = { λ tag given. given ≡ byte_of tag };

    fn from(tag: Tag) -> u8 {
        tag as u8
    }
}
