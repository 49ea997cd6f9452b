// The kinds of subjects, their strands and levels, by name.
ghost use Rattle.std.specs.Prelude.{◌≡◌};
ghost use Rattle.catalogue.specs.Kinds.{Names, number, is_general, is_applied, is_vet, is_identified};

// The kinds, by their numbers; the first three count as General.
#[derive(Clone, Copy, Debug, PartialEq, Eq)]
pub enum Kind {
    General = 1,
    Extension = 2,
    ExternalExamination = 3,
    Applied = 4,
    ShortCourse = 5,
    Vet = 6,
}

// A number that no kind has.
#[derive(Clone, Copy, Debug, PartialEq, Eq)]
pub struct NoKind(pub u8);

// 1 to 6, in the order above. By hand, here and for the tags of a file: std derives no TryFrom.
impl TryFrom<u8> for Kind {
    type Error = NoKind;

    ghost try_from_gives = { Names };

    fn try_from(number: u8) -> Result<Kind, NoKind> {
        match number {
            1 => Ok(Kind::General),
            2 => Ok(Kind::Extension),
            3 => Ok(Kind::ExternalExamination),
            4 => Ok(Kind::Applied),
            5 => Ok(Kind::ShortCourse),
            6 => Ok(Kind::Vet),
            _ => Err(NoKind(number)),
        }
    }
}

// Back to the number that stands in a catalogue.
impl From<Kind> for u8 {
    ghost from_gives = { λ kind given. given ≡ number kind };

    fn from(kind: Kind) -> u8 {
        kind as u8
    }
}

// The strands; 0 is none. Strands and levels stay numbers: they are only compared with one of these, so an enum is no plainer.
pub const ENGLISH: u8 = 1;

pub const MATHEMATICS: u8 = 2;

// The levels of VET: the least, Certificate III, and the Advanced Diploma.
pub const CERTIFICATE_I: u8 = 1;

pub const CERTIFICATE_III: u8 = 3;

pub const ADVANCED_DIPLOMA: u8 = 6;

// Whether the kind counts as General.
pub fn is_general(kind: u8) -> bool
    ensures { result ≡ is_general kind }
{
    matches!(
        Kind::try_from(kind),
        Ok(Kind::General | Kind::Extension | Kind::ExternalExamination)
    )
}

pub fn is_applied(kind: u8) -> bool
    ensures { result ≡ is_applied kind }
{
    matches!(Kind::try_from(kind), Ok(Kind::Applied))
}

pub fn is_vet(kind: u8) -> bool
    ensures { result ≡ is_vet kind }
{
    matches!(Kind::try_from(kind), Ok(Kind::Vet))
}

// Whether the kind has an identity.
pub fn is_identified(kind: u8) -> bool
    ensures { result ≡ is_identified kind }
{
    matches!(
        Kind::try_from(kind),
        Ok(Kind::General | Kind::ExternalExamination)
    )
}
