ghost use Rattle.std.specs.Prelude.{◌≡◌};
ghost use Rattle.policies.specs.WriteOrExecute.{violation_number, write_or_execute};
ghost use Rattle.policies.specs.WriteOrExecuteLaw.{Lawful};
ghost use Rattle.std.proofs.Common.{rules};

use rulebook::{Group, Narrow, NarrowAnswer, Question, Tags, Violation};

/// Why Write or execute denies.
#[derive(Clone, Copy, PartialEq, Eq, Debug)]
pub enum WriteOrExecuteViolation {
    /// the program counter or a register has a tag
    Tagged = 1,
    /// the instruction's cell is not tagged as code
    NotCode = 2,
    /// the memory cell is not data
    NotData = 3,
}

impl Violation for WriteOrExecuteViolation {
    ghost numbered = { violation_number };

    fn number(self) -> u8 {
        self as u8
    }
}

// The tags of a cell: what it holds is either read and written, or executed. No enum: they are compared, and an enum of
// them would only be turned back into numbers.
const DATA: u32 = 0;

const CODE: u32 = 1;

/// No cell is both written and executed.  It has no state: an answer depends on the question alone.
#[derive(Clone, Copy, Debug)]
pub struct WriteOrExecute;

impl Narrow for WriteOrExecute {
    ghost rules = { λ _. write_or_execute };

    ghost narrow = { Prim.search rules };

    fn decide(&self, q: Question) -> NarrowAnswer
        ensures answers { result ≡ write_or_execute q }
        ensures lawful { Lawful q result }
    {
        if q.pc != 0 || q.a != 0 || q.b != 0 {
            return WriteOrExecuteViolation::Tagged.denied();
        }
        if q.group != Group::Post && q.ci != CODE {
            return WriteOrExecuteViolation::NotCode.denied();
        }
        if q.m != DATA {
            return WriteOrExecuteViolation::NotData.denied();
        }
        Ok(Tags { pc: 0, r: DATA })
    }
}
