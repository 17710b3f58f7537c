ghost use Rattle.std.specs.Prelude.{◌≡◌, IfOk, string_bytes};
ghost use Rattle.std.specs.List.{flat_map};
ghost use Rattle.report.specs.Report.{out_lines, run_text};

use crate::end::end_line;
use crate::out::out_line;
use machine::Record;
use std::alloc::{AllocError, Global};
use std::fmt::Write;

/// All lines of a run, each with the mark that ends it: one for each OUT that went through, in order, then the one
/// that ends the run.
pub fn run_lines(heap: Global, records: &[Record]) -> Result<String, AllocError>
    ensures { IfOk result (λ s. string_bytes s ≡ run_text records.now) }
{
    let mut text = all_out_lines(heap, records)?;
    if let Some(last) = records.last() {
        let line = end_line(heap, last)?;
        writeln!(text, "{line}")?;
    }
    Ok(text)
}

fn all_out_lines(heap: Global, records: &[Record]) -> Result<String, AllocError>
    ensures { IfOk result (λ s. string_bytes s ≡ flat_map out_lines records.now) }
{
    let mut text = String::new(heap);
    for entry in records {
        if let Some(line) = out_line(heap, entry)? {
            writeln!(text, "{line}")?;
        }
    }
    Ok(text)
}
