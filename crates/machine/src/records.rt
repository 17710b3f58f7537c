ghost use Rattle.std.specs.Prelude.{◌≡◌};
ghost use Rattle.machine.specs.Cause.{cause_number, cause_half, cause_violation};

use crate::state::Count;
use rulebook::{Denial, Group, Question};

/// How a step ended.
#[derive(Clone, Copy, Debug)]
pub enum Cause {
    /// HALT was obeyed
    Halted,
    /// the pc is at no cell
    PcOutside,
    /// the fetched word is no instruction
    Illegal,
    /// the address of a load or a store is at no cell
    DataOutside,
    /// the rulebook denied the fetch or the op
    Denied(Denial),
    /// the machine runs on
    Running,
}

impl Cause {
    // Written out, since a variant has fields and so there is no `as u8`.
    pub fn number(self) -> u8
        ensures { result ≡ cause_number self }
    {
        match self {
            Cause::Halted => 0,
            Cause::PcOutside => 1,
            Cause::Illegal => 2,
            Cause::DataOutside => 3,
            Cause::Denied(_) => 4,
            Cause::Running => 255,
        }
    }

    /// The number of the half that denied, 0 where nothing was denied.
    pub fn half(self) -> u8
        ensures { result ≡ cause_half self }
    {
        match self {
            Cause::Denied(denial) => u8::from(denial.half),
            _ => 0,
        }
    }

    /// The number of the violation, 0 where nothing was denied.
    pub fn violation(self) -> u8
        ensures { result ≡ cause_violation self }
    {
        match self {
            Cause::Denied(denial) => denial.violation,
            _ => 0,
        }
    }
}

/// What a step did.  A field to which nothing applies is 0.
#[derive(Clone, Copy, Debug)]
pub struct Record {
    /// steps made so far, this one among them unless its cause is 1 to 4
    pub count: Count,
    /// where the instruction stands
    pub pc: u32,
    /// the fetched word; 0 where the fetch was denied
    pub word: u32,
    /// what the op was asked; its group is FETCH where no legal word was reached, and its tags but
    /// for ci are 0 where no op was asked
    pub question: Question,
    /// of a load or a store
    pub address: u32,
    /// the word that was loaded; 0 where the load was denied
    pub loaded: u32,
    /// the word that was written, or shown by OUT
    pub result: u32,
    /// the tag of what is written, as the rulebook gave it
    pub r: u32,
    /// the new pc
    pub next: u32,
    /// the new pc tag
    pub tag: u32,
    pub cause: Cause,
}

impl Record {
    /// What a place of a journal can hold before a record stands there.
    pub const BLANK: Record = Record {
        count: 0,
        pc: 0,
        word: 0,
        question: Question {
            group: Group::Fetch,
            pc: 0,
            ci: 0,
            a: 0,
            b: 0,
            m: 0,
        },
        address: 0,
        loaded: 0,
        result: 0,
        r: 0,
        next: 0,
        tag: 0,
        cause: Cause::Running,
    };
}
