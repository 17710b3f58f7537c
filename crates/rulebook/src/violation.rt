ghost use Rattle.std.specs.Prelude.{◌≡◌, ℕ, Err};

use super::answer::NarrowAnswer;

/// Why a narrow rulebook denies: an enum of its own, of which each case has a number.
pub trait Violation: Sized {
    ghost numbered: { Self → ℕ };

    // No `From`: its `from_gives` is a relation, and what a rulebook means needs a function of the violation.
    fn number(self) -> u8
        ensures { result ≡ numbered self };

    fn denied(self) -> NarrowAnswer
        ensures { result ≡ Err (numbered self) }
    {
        Err(self.number())
    }
}
