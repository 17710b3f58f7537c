ghost use Rattle.std.specs.Prelude.{◌≡◌, ◌++◌, Some, codes, decimal};
ghost use Rattle.rulebook.specs.Group.{GroupOf, number_of};

use std::error::Error;
use std::fmt;

/// What is asked about: an op of the machine, the fetch of an instruction, or a word posted from outside.
#[derive(Clone, Copy, PartialEq, Eq, Debug, Default)]
pub enum Group {
    #[default]
    Halt = 0,
    Const = 1,
    Move = 2,
    Add = 3,
    Sub = 4,
    And = 5,
    Xor = 6,
    Shl = 7,
    Less = 8,
    Load = 9,
    Store = 10,
    Jump = 11,
    Branch = 12,
    Call = 13,
    Ret = 14,
    Out = 15,
    Fetch = 16,
    Post = 17,
}

// `==` says whether two groups are one and the same, and so is an equivalence.
#[derived]
impl Eq for Group {
    ghost use Rattle.std.specs.Cmp.{decided};
    ghost use Rattle.rulebook.specs.Same.{same_group_decides};

    ghost laws = { decided _ same_group_decides };
}

/// A number that no group has.
#[derive(Clone, Copy, PartialEq, Eq, Debug)]
pub struct UnknownGroup(pub u32);

impl From<Group> for u8 {
    ghost from_gives = { λ group number. number ≡ number_of group };

    fn from(group: Group) -> u8 {
        group as u8
    }
}

impl TryFrom<u32> for Group {
    type Error = UnknownGroup;

    ghost try_from_gives = { GroupOf };

    fn try_from(number: u32) -> Result<Group, UnknownGroup> {
        let group = match number {
            0 => Group::Halt,
            1 => Group::Const,
            2 => Group::Move,
            3 => Group::Add,
            4 => Group::Sub,
            5 => Group::And,
            6 => Group::Xor,
            7 => Group::Shl,
            8 => Group::Less,
            9 => Group::Load,
            10 => Group::Store,
            11 => Group::Jump,
            12 => Group::Branch,
            13 => Group::Call,
            14 => Group::Ret,
            15 => Group::Out,
            16 => Group::Fetch,
            17 => Group::Post,
            _ => return Err(UnknownGroup(number)),
        };
        Ok(group)
    }
}

impl fmt::Display for UnknownGroup {
    ghost output = { λ e. Some (codes "no group has number " ++ decimal e.0) };

    fn fmt<W: fmt::Write>(&self, f: &mut fmt::Formatter<W>) -> fmt::Result {
        let number = self.0;
        write!(f, "no group has number {number}")
    }
}

impl Error for UnknownGroup {}
