ghost use Rattle.std.specs.Prelude.{◌≡◌};
ghost use Rattle.std.proofs.Common.{rules};
ghost use Rattle.cases.specs.AtDepthZero.{at_depth_zero};

use rulebook::{Narrow, NarrowAnswer, Question, Tags};

/// A narrow rulebook of one's own, as small as they come: it allows at pc tag 0 alone. It has no enum of violations; its one
/// violation is the number 3.
#[derive(Clone, Copy, Debug)]
pub struct AtDepthZero;

impl Narrow for AtDepthZero {
    ghost rules = { λ _. at_depth_zero };

    ghost narrow = { Prim.search rules };

    fn decide(&self, q: Question) -> NarrowAnswer
        ensures answers { result ≡ at_depth_zero q }
    {
        if q.pc == 0 {
            Ok(Tags { pc: 0, r: 0 })
        } else {
            Err(3)
        }
    }
}
