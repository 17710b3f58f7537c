ghost use Rattle.std.specs.Prelude.{◌≡◌, ◌++◌, Some, codes, decimal};
ghost use Rattle.refusal.specs.Refusal.{refusal_number};

use std::error::Error;
use std::fmt;

/// Why a call is refused. A refused call leaves everything that it was handed as it was.
#[derive(Clone, Copy, PartialEq, Eq, Debug)]
pub enum Refusal {
    /// cells or registers are not as many as they must be
    Sizes = 1,
    /// the head or the body of a section runs past the end, or there are no bytes
    CutShort = 2,
    /// the first section is no header, or a later one is
    SectionOrder = 3,
    /// a section is of a kind that has no meaning
    SectionKind = 4,
    /// a section's body is too short or too long for its kind
    BodyLength = 5,
    /// the header names other cells than those handed over, or a start that is not below them
    HeaderValues = 6,
    /// a section sets cells that are not there
    PastCells = 7,
    /// the journal has no place for a name
    NamesFull = 8,
    /// a budget is 0 or above 1,000,000
    Budget = 10,
    /// an append meets a full journal
    JournalFull = 11,
}

impl From<Refusal> for u8 {
    ghost from_gives = { λ refusal r. r ≡ refusal_number refusal };

    fn from(refusal: Refusal) -> u8 {
        refusal as u8
    }
}

// `==` says whether two refusals are one and the same, and so is an equivalence.
#[derived]
impl Eq for Refusal {
    ghost use Rattle.std.specs.Cmp.{decided};
    ghost use Rattle.refusal.specs.Same.{same_refusal_decides};

    ghost laws = { decided _ same_refusal_decides };
}

impl fmt::Display for Refusal {
    ghost output = { λ x. Some (codes "refused, number " ++ decimal (refusal_number x)) };

    fn fmt<W: fmt::Write>(&self, f: &mut fmt::Formatter<W>) -> fmt::Result {
        let number = u8::from(*self);
        write!(f, "refused, number {number}")
    }
}

impl Error for Refusal {}
