ghost use Rattle.std.specs.Prelude.{◌≡◌, ◌≤◌, IfOk};
ghost use Rattle.rulebook.specs.declared.question.Question.{Question};
ghost use Rattle.rulebook.specs.Answer.{IsNarrow};
ghost use Rattle.rulebook.specs.Pair.{pair as paired, both as both_of, joined, Halves};
ghost use Rattle.rulebook.specs.Question.{each, low, high};

use super::answer::{Answer, Half, Tags, by_half};
use super::interface::{Narrow, Rulebook};
use super::question::Question;

/// Two narrow rulebooks side by side, each with its half of every tag.
#[derive(Clone, Copy, Debug, Drop)]
pub struct Pair<L, U> {
    pub lower: L,
    pub upper: U,
}

impl<L: Narrow, U: Narrow> Rulebook for Pair<L, U> {
    ghost meaning = { λ s. paired (L.Narrow.rules s.lower) (U.Narrow.rules s.upper) };

    fn ask(&mut self, q: Question) -> Answer
        ensures answers { result ≡ paired (L.Narrow.rules self.old.lower) (U.Narrow.rules self.old.upper) q }
        ensures keeps { (p : Question) → paired (L.Narrow.rules self.new.lower) (U.Narrow.rules self.new.upper) p ≡ paired (L.Narrow.rules self.old.lower) (U.Narrow.rules self.old.upper) p }
        ensures same { self.new ≡ self.old }
        ensures halves { Halves (L.Narrow.rules self.old.lower (each low q)) (U.Narrow.rules self.old.upper (each high q)) result }
    {
        let lower = self.lower.decide(q.lower());
        let upper = self.upper.decide(q.upper());
        both(by_half(Half::Lower, lower), by_half(Half::Upper, upper))
    }
}

// The answer of a pair from those of its parts.
fn both(lower: Answer, upper: Answer) -> Answer
    requires lower { IfOk lower IsNarrow }
    requires upper { IfOk upper IsNarrow }
    ensures answers { result ≡ both_of lower upper }
    ensures halves { Halves lower upper result }
{
    let low = lower?;
    let high = upper?;
    Ok(Tags {
        pc: join(low.pc, high.pc),
        r: join(low.r, high.r),
    })
}

// A tag from its two halves.
fn join(low: u32, high: u32) -> u32
    requires { (low ≤ 65535) × (high ≤ 65535) }
    ensures { result ≡ joined low high }
{
    (high << 16) + low
}
