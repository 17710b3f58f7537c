ghost use Rattle.std.specs.Prelude.{◌≡◌, MatchOption};
ghost use Rattle.rulebook.specs.declared.question.Question.{Question};
ghost use Rattle.transcript.specs.Transcript.{IsQuestion, numbers_of};

use super::numbers::{COUNT, read_numbers};
use rulebook::{Group, Question};

/// The question of a line that holds its six numbers: group, pc, ci, a, b and m.
pub fn read_question(line: &[u8]) -> Option<Question>
    ensures { MatchOption result ((q : Question) → IsQuestion line.now q → ⊥) (λ q. IsQuestion line.now q) }
{
    question_of(read_numbers(line)?)
}

// The question with these six numbers, if there is one.
fn question_of(numbers: [u32; COUNT]) -> Option<Question>
    ensures { MatchOption result ((q : Question) → numbers ≡ numbers_of q → ⊥) (λ q. numbers ≡ numbers_of q) }
{
    let [number, pc, ci, a, b, m] = numbers;
    let group = Group::try_from(number).ok()?;
    Some(Question {
        group,
        pc,
        ci,
        a,
        b,
        m,
    })
}
