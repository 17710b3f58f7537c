ghost use Rattle.std.specs.Prelude.{◌≡◌};
ghost use Rattle.instruction.specs.Instruction.{operation_group};
ghost use Rattle.instruction.specs.Operation.{computed};

use rulebook::Group;

/// What an instruction of three registers computes.
#[derive(Clone, Copy, Debug)]
pub enum Operation {
    Add,
    Sub,
    And,
    Xor,
    /// left, by the low five bits of the second word
    Shl,
    /// unsigned: 1 or 0
    Less,
}

impl Operation {
    pub fn apply(self, x: u32, y: u32) -> u32
        ensures { result ≡ computed self x y }
    {
        match self {
            Operation::Add => x.wrapping_add(y),
            Operation::Sub => x.wrapping_sub(y),
            Operation::And => x & y,
            Operation::Xor => x ^ y,
            Operation::Shl => x << (y % 32),
            Operation::Less => u32::from(x < y),
        }
    }
}

impl From<Operation> for Group {
    ghost from_gives = { λ op r. r ≡ operation_group op };

    fn from(op: Operation) -> Group {
        match op {
            Operation::Add => Group::Add,
            Operation::Sub => Group::Sub,
            Operation::And => Group::And,
            Operation::Xor => Group::Xor,
            Operation::Shl => Group::Shl,
            Operation::Less => Group::Less,
        }
    }
}
