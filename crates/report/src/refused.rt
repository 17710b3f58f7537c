ghost use Rattle.std.specs.Prelude.{◌≡◌, IfOk, string_bytes};
ghost use Rattle.report.specs.Report.{refused_text};

use image::LoadFault;
use std::alloc::{AllocError, Global};

/// The line of an image that is not loaded: `refused R P`, with the refusal's number and its place.
pub fn refused_line(heap: Global, fault: LoadFault) -> Result<String, AllocError>
    ensures { IfOk result (λ s. string_bytes s ≡ refused_text fault) }
{
    fault.to_string(heap)
}
