ghost use Rattle.std.specs.Prelude.{IfOk, string_bytes};
ghost use Rattle.image.specs.Prints.{Reported};

use crate::survey::Survey;
use std::alloc::{AllocError, Global};

// What is printed of a file: what it holds, or alone the first line that is turned down.
pub fn report(heap: Global, text: &[u8]) -> Result<String, AllocError>
    ensures { IfOk result (λ page. Reported text.now (string_bytes page)) }
{
    match Survey::of(text) {
        Ok(survey) => format!(in heap; "{survey}"),
        Err(refused) => format!(in heap; "{refused}"),
    }
}
