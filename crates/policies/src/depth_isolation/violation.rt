ghost use Rattle.policies.specs.DepthViolation.{violation_number};

use rulebook::Violation;

/// Why Depth Isolation denies.
#[derive(Clone, Copy, PartialEq, Eq, Debug)]
pub enum DepthViolation {
    /// the pc tag is no depth
    NoDepth = 1,
    /// the instruction's cell is not tagged as code
    NotCode = 2,
    /// a tag is none that its place may have
    UnknownTag = 3,
    /// the cell is not one that may be reached from this depth
    ForeignCell = 4,
    /// the cell is empty: claim it first
    EmptyCell = 5,
    /// the cell holds code
    CodeCell = 6,
    /// a link may be stored only in a frame of the depth that it returns from
    StrayLink = 7,
    /// only an empty cell can be claimed
    NotEmpty = 8,
    /// there is no depth below the deepest
    TooDeep = 9,
    /// a return presents the link that was made at the depth returned to
    NoReturn = 10,
}

impl Violation for DepthViolation {
    ghost numbered = { violation_number };

    fn number(self) -> u8 {
        self as u8
    }
}
