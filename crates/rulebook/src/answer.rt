ghost use Rattle.std.specs.Prelude.{◌≡◌};
ghost use Rattle.rulebook.specs.Answer.{half_number, by_half};

/// Which part of a rulebook denied.
#[derive(Clone, Copy, PartialEq, Eq, Debug)]
pub enum Half {
    /// a rulebook that is no pair
    Alone = 0,
    /// of a pair, the part that sees the low 16 bits of each tag
    Lower = 1,
    /// of a pair, the part that sees the high 16 bits
    Upper = 2,
}

impl From<Half> for u8 {
    ghost from_gives = { λ half number. number ≡ half_number half };

    fn from(half: Half) -> u8 {
        half as u8
    }
}

/// The tags that the program counter and the result then have.
#[derive(Clone, Copy, PartialEq, Eq, Debug, Default)]
pub struct Tags {
    pub pc: u32,
    pub r: u32,
}

/// Which part of a rulebook denied, and the number of its violation: a number, since rulebooks of any violations stand behind
/// one interface, and each numbers its own.
#[derive(Clone, Copy, PartialEq, Eq, Debug)]
pub struct Denial {
    pub half: Half,
    pub violation: u8,
}

/// What a rulebook answers.
pub type Answer = Result<Tags, Denial>;

/// What a narrow rulebook answers: it cannot tell which half it is. Why it denies is the number of a violation, so that
/// rulebooks of any violations can stand behind one interface, `dyn Narrow` among them.
pub type NarrowAnswer = Result<Tags, u8>;

// What a narrow rulebook answers, said by one half of a rulebook.
pub(crate) fn by_half(half: Half, answer: NarrowAnswer) -> Answer
    ensures { result ≡ by_half half answer }
{
    answer.map_err(|violation| Denial { half, violation })
}
