ghost use Rattle.std.specs.Prelude.{IfOk, string_bytes};
ghost use Rattle.jobfile.specs.Told.{LineOf};

use super::JobFile;
use std::alloc::{AllocError, Global};

// The line of a file of at most so many bytes: what it holds, or why it is refused.
pub fn line_of(heap: Global, file: &[u8], limit: usize) -> Result<String, AllocError>
    ensures { IfOk result (λ s. LineOf limit file.now (string_bytes s)) }
{
    let mut job = JobFile::empty(heap);
    match job.read_at_most(heap, file, limit) {
        Ok(()) => job.line(heap),
        Err(fault) => fault.line(heap),
    }
}
