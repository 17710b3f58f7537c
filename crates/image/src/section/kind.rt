ghost use Rattle.image.specs.Kind.{KindOf};

use refusal::Refusal;

// What a section is there for.
#[derive(Clone, Copy, PartialEq, Eq)]
pub enum Kind {
    Header,
    Words,
    Tags,
    Names,
    // any other note
    Note,
}

impl TryFrom<u16> for Kind {
    type Error = Refusal;

    ghost try_from_gives = { KindOf };

    fn try_from(number: u16) -> Result<Kind, Refusal> {
        match number {
            1 => Ok(Kind::Header),
            2 => Ok(Kind::Words),
            3 => Ok(Kind::Tags),
            32_769 => Ok(Kind::Names),
            32_768..=u16::MAX => Ok(Kind::Note),
            _ => Err(Refusal::SectionKind),
        }
    }
}
