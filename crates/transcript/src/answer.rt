ghost use Rattle.std.specs.Prelude.{◌≡◌, IfOk, string_bytes};
ghost use Rattle.transcript.specs.Transcript.{answer_text};

use rulebook::{Answer, Denial, Tags};
use std::alloc::{AllocError, Global};

// No `Display`: an answer is a `Result`, and its text is no concern of the rulebooks.
/// The line of an answer: `allowed PC R` or `denied HALF VIOLATION`.
pub fn answer_line(heap: Global, answer: Answer) -> Result<String, AllocError>
    ensures { IfOk result (λ s. string_bytes s ≡ answer_text answer) }
{
    match answer {
        Ok(Tags { pc, r }) => format!(in heap; "allowed {pc} {r}"),
        Err(Denial { half, violation }) => {
            let half = u8::from(half);
            format!(in heap; "denied {half} {violation}")
        }
    }
}
