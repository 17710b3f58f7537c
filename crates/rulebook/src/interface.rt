ghost use Rattle.std.specs.Prelude.{◌≡◌, IfOk};
ghost use Rattle.rulebook.specs.declared.question.Question.{Question};
ghost use Rattle.rulebook.specs.Answer.{Answer, IsNarrow, NarrowAnswer};

use super::answer::{Answer, NarrowAnswer};
use super::question::Question;

/// A rulebook means one answer for every question.  Asking may change what it holds, as a cache
/// does, and never what it means.
pub trait Rulebook {
    ghost meaning: { Self → Question → Answer };

    fn ask(&mut self, q: Question) -> Answer
        ensures answers { result ≡ meaning self.old q }
        ensures keeps { (p : Question) → meaning self.new p ≡ meaning self.old p };
}

/// A rulebook whose tags have 16 bits, so that two of them can share a tag of 32.
pub trait Narrow {
    ghost rules: { Self → Question → NarrowAnswer };

    fn decide(&self, q: Question) -> NarrowAnswer
        ensures answers { result ≡ rules self.now q };

    ghost narrow: { (n : Self) (q : Question) → IfOk (rules n q) IsNarrow };
}
