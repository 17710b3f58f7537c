ghost use Rattle.std.specs.Prelude.{◌≡◌, IfNone, IfOk, None, Ok, string_bytes};
ghost use Rattle.std.specs.Option.{option_map};
ghost use Rattle.report.specs.Report.{out_text, word_shown};

use machine::{Cause, Record};
use rulebook::Group;
use std::alloc::{AllocError, Global};

/// The line of an OUT that went through, `out W` with the word that it shows; other records have
/// none.
pub fn out_line(heap: Global, entry: &Record) -> Result<Option<String>, AllocError>
    ensures line { IfOk result (λ line. option_map string_bytes line ≡ out_text entry.now) }
    ensures silent { IfNone (word_shown entry.now) (result ≡ Ok None) }
{
    shown(entry)
        .map(|word| format!(in heap; "out {word}"))
        .transpose()
}

fn shown(entry: &Record) -> Option<u32>
    ensures { result ≡ word_shown entry.now }
{
    match (entry.question.group, entry.cause) {
        (Group::Out, Cause::Running) => Some(entry.result),
        _ => None,
    }
}
