ghost use Rattle.std.specs.Prelude.{◌≡◌, ◌%◌, ◌^◌, ◌<◌, IfSome};
ghost use Rattle.instruction.specs.Instruction.{encoded, extended, packed, Fits};
ghost use Rattle.instruction.specs.Decode.{decoded, of_fields, Decodes};

use crate::instruction::Instruction;
use crate::operation::Operation;

impl Instruction {
    /// The instruction of a word, absent where the word is illegal.
    pub fn decode(word: u32) -> Option<Instruction>
        ensures decoded { result ≡ decoded word }
        ensures lawful { Decodes word result }
    {
        unpacked(word)
    }
}

// What a word says, with the laws of the layout: the lemma is cited here, so that a wrong `decode` is refused at its
// contract.
#[tactic(auto, unfolding(crate::specs::Decode::decoded))]
fn unpacked(word: u32) -> Option<Instruction>
    ensures decoded { result ≡ decoded word }
    ensures lawful { Decodes word result }
{
    of_fields(
        word >> 24,
        ((word >> 20) % 16) as u8,
        ((word >> 16) % 16) as u8,
        word % 65536,
    )
}

fn of_fields(op: u32, d: u8, s: u8, k: u32) -> Option<Instruction>
    requires registers { (d < 16) × (s < 16) }
    requires number { k < 2 ^ 16 }
    ensures decoded { result ≡ of_fields op d s k }
    ensures encodes { IfSome result (λ i. Fits i × (encoded i ≡ packed op d s k)) }
{
    // in these ops k names the register t
    let compute = |op| Some(Instruction::Compute {
        op,
        d,
        s,
        t: (k % 16) as u8,
    });
    // One line for each op, as in the table of ops: no `TryFrom` that would hide their numbers.
    match op {
        0 if d == 0 && s == 0 && k == 0 => Some(Instruction::Halt),
        1 if s == 0 => Some(Instruction::Const { d, k: extend(k) }),
        2 if k == 0 => Some(Instruction::Move { d, s }),
        3 if k < 16 => compute(Operation::Add),
        4 if k < 16 => compute(Operation::Sub),
        5 if k < 16 => compute(Operation::And),
        6 if k < 16 => compute(Operation::Xor),
        7 if k < 16 => compute(Operation::Shl),
        8 if k < 16 => compute(Operation::Less),
        9 => Some(Instruction::Load { d, s, k: extend(k) }),
        10 => Some(Instruction::Store { d, s, k: extend(k) }),
        11 if d == 0 && k == 0 => Some(Instruction::Jump { s }),
        12 if d == 0 => Some(Instruction::Branch { s, k: extend(k) }),
        13 if s == 0 => Some(Instruction::Call { d, k: extend(k) }),
        14 if d == 0 && k == 0 => Some(Instruction::Ret { s }),
        15 if d == 0 && k == 0 => Some(Instruction::Out { s }),
        _ => None,
    }
}

// 16 bits, their sign carried to 32.
fn extend(k: u32) -> u32
    requires { k < 2 ^ 16 }
    ensures extended { result ≡ extended k }
    ensures low { result % 2 ^ 16 ≡ k }
{
    i32::from((k as u16).cast_signed()).cast_unsigned()
}
