ghost use Rattle.std.specs.Prelude.{◌≡◌};
ghost use Rattle.instruction.specs.Instruction.{group_of};

use super::operation::Operation;
use rulebook::Group;

/// A legal instruction word, taken apart: d, s and t are registers, k is a number extended to 32 bits.
#[derive(Clone, Copy, Debug)]
pub enum Instruction {
    Halt,
    Const { d: u8, k: u32 },
    Move { d: u8, s: u8 },
    Compute { op: Operation, d: u8, s: u8, t: u8 },
    Load { d: u8, s: u8, k: u32 },
    Store { d: u8, s: u8, k: u32 },
    Jump { s: u8 },
    Branch { s: u8, k: u32 },
    Call { d: u8, k: u32 },
    Ret { s: u8 },
    Out { s: u8 },
}

impl Instruction {
    // No `From`: a group is one of an instruction's properties, and no other form of it.
    /// What a rulebook is asked about before the instruction is obeyed.
    pub fn group(self) -> Group
        ensures { result ≡ group_of self }
    {
        match self {
            Instruction::Halt => Group::Halt,
            Instruction::Const { .. } => Group::Const,
            Instruction::Move { .. } => Group::Move,
            Instruction::Compute { op, .. } => op.into(),
            Instruction::Load { .. } => Group::Load,
            Instruction::Store { .. } => Group::Store,
            Instruction::Jump { .. } => Group::Jump,
            Instruction::Branch { .. } => Group::Branch,
            Instruction::Call { .. } => Group::Call,
            Instruction::Ret { .. } => Group::Ret,
            Instruction::Out { .. } => Group::Out,
        }
    }
}
