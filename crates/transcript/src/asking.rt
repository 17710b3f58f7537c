ghost use Rattle.std.specs.Prelude.{◌≡◌, IfNone, MatchOption};
ghost use Rattle.rulebook.specs.declared.question.Question.{Question};
ghost use Rattle.transcript.specs.Transcript.{IsQuestion};

use super::question::read_question;
use rulebook::{Answer, Rulebook};

/// Puts the question of a line to a rulebook; a line that is no question changes nothing.
pub fn ask_line<R: Rulebook>(rules: &mut R, line: &[u8]) -> Option<Answer>
    ensures answers { MatchOption result ((q : Question) → IsQuestion line.now q → ⊥) (λ a. (q : Question) × (IsQuestion line.now q × (a ≡ R.Rulebook.meaning rules.old q))) }
    ensures keeps { (p : Question) → R.Rulebook.meaning rules.new p ≡ R.Rulebook.meaning rules.old p }
    ensures untouched { IfNone result (rules.new ≡ rules.old) }
{
    let question = read_question(line)?;
    Some(rules.ask(question))
}
