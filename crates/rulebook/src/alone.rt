ghost use Rattle.std.specs.Prelude.{◌≡◌};
ghost use Rattle.rulebook.specs.declared.question.Question.{Question};
ghost use Rattle.rulebook.specs.declared.answer.Half.TheVariants as half;
ghost use Rattle.rulebook.specs.Answer.{by_half as answered};

use super::answer::{Answer, Half, by_half};
use super::interface::{Narrow, Rulebook};
use super::question::Question;

/// A narrow rulebook that is asked with whole tags.
#[derive(Clone, Copy, Debug, Drop)]
pub struct Alone<N> {
    pub rules: N,
}

impl<N: Narrow> Rulebook for Alone<N> {
    ghost meaning = { λ s q. answered half.Alone (N.Narrow.rules s.rules q) };

    fn ask(&mut self, q: Question) -> Answer
        ensures answers { result ≡ answered half.Alone (N.Narrow.rules self.old.rules q) }
        ensures keeps { (p : Question) → answered half.Alone (N.Narrow.rules self.new.rules p) ≡ answered half.Alone (N.Narrow.rules self.old.rules p) }
        ensures same { self.new ≡ self.old }
    {
        by_half(Half::Alone, self.rules.decide(q))
    }
}
