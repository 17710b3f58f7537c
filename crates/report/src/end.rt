ghost use Rattle.std.specs.Prelude.{◌≡◌, IfOk, string_bytes};
ghost use Rattle.report.specs.Report.{end_text, stop_text};

use machine::{Cause, Record};
use std::alloc::{AllocError, Global};

// No `Display` of a record: the same record has another text where it shows a word.
/// The line that ends a run, by its last record: `halt N`, `spent N` or `stop C P H V N`.
pub fn end_line(heap: Global, last: &Record) -> Result<String, AllocError>
    ensures { IfOk result (λ s. string_bytes s ≡ end_text last.now) }
{
    let count = last.count;
    match last.cause {
        Cause::Halted => format!(in heap; "halt {count}"),
        Cause::Running => format!(in heap; "spent {count}"),
        _ => stop_line(heap, last),
    }
}

// The cause, the pc, the half, the violation and the count.
fn stop_line(heap: Global, last: &Record) -> Result<String, AllocError>
    ensures { IfOk result (λ s. string_bytes s ≡ stop_text last.now) }
{
    let cause = last.cause.number();
    let pc = last.pc;
    let half = last.cause.half();
    let violation = last.cause.violation();
    let count = last.count;
    format!(in heap; "stop {cause} {pc} {half} {violation} {count}")
}
