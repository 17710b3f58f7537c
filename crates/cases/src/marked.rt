ghost use Rattle.std.specs.Prelude.{◌≡◌};
ghost use Rattle.std.specs.List.{AllByRecursion};
ghost use Rattle.cases.specs.Marked.{asks as asked, denied as refuses, marked, Holds};
ghost use Rattle.rulebook.specs.Answer.{allowed as permits};

use super::case::Case;
use instruction::Operation;
use rulebook::{Denial, Group, Half, Question, Tags};

// A question in which b has no part.
fn asks(group: Group, pc: u32, ci: u32, a: u32, m: u32) -> Question
    ensures { result ≡ asked group pc ci a m }
{
    Question {
        group,
        pc,
        ci,
        a,
        b: 0,
        m,
    }
}

fn allowed(question: Question, pc: u32, r: u32) -> Case
    ensures { result ≡ Case.Asked question (permits pc r) }
{
    Case::Asked {
        question,
        answer: Ok(Tags { pc, r }),
    }
}

// The violation by its number, as an answer holds it.
fn denied(question: Question, violation: u8) -> Case
    ensures { result ≡ Case.Asked question (refuses violation) }
{
    Case::Asked {
        question,
        answer: Err(Denial {
            half: Half::Alone,
            violation,
        }),
    }
}

fn computed(op: Operation, x: u32, y: u32, value: u32) -> Case
    ensures { result ≡ Case.Computed op x y value }
{
    Case::Computed {
        op,
        x,
        y,
        result: value,
    }
}

/// The cases by which a reader can tell that the rules and the arithmetic are the ones that were meant.
pub fn marked_cases() -> [Case; 11]
    ensures table { result ≡ marked }
    ensures hold { AllByRecursion Holds marked }
{
    [
        allowed(asks(Group::Fetch, 0, 16, 0, 0), 0, 0),
        denied(asks(Group::Fetch, 0, 256, 0, 0), 2),
        allowed(asks(Group::Load, 1, 16, 0, 769), 1, 512),
        denied(asks(Group::Load, 1, 16, 0, 256), 4),
        denied(asks(Group::Store, 1, 16, 513, 257), 7),
        allowed(asks(Group::Call, 254, 16, 0, 0), 255, 766),
        denied(asks(Group::Call, 255, 16, 0, 0), 9),
        denied(asks(Group::Ret, 0, 16, 512, 0), 10),
        allowed(asks(Group::Store, 1, 17, 512, 1), 1, 769),
        computed(Operation::Sub, 0, 1, 4294967295),
        computed(Operation::Shl, 1, 33, 2),
    ]
}
