// Cases of lanes: each call's answer is one word.

ghost use Rattle.std.specs.Prelude.{◌≡◌, IfOk, string_bytes};
ghost use Rattle.cases.specs.Lanes.{PutSays, TakeSays};

use crate::words::Word;
use lane::Lane;
use refusal::Refusal;
use std::alloc::{AllocError, Global};

// A put of a frame.
pub fn put<L: Lane>(heap: Global, lane: &mut L, frame: &[u8]) -> Result<String, AllocError>
    ensures { IfOk result (λ word. PutSays (L.waiting lane.old) frame.now (L.waiting lane.new) (L.puts lane.old frame.now lane.new) (string_bytes word)) }
{
    match lane.put(frame) {
        Ok(()) => String::from_str(heap, "ok"),
        Err(fault) => format!(in heap; "refused-{}", Refusal::from(fault)),
    }
}

// A take into a buffer.
pub fn take<L: Lane>(heap: Global, lane: &mut L, buffer: &mut [u8]) -> Result<String, AllocError>
    ensures { IfOk result (λ word. TakeSays (L.waiting lane.old) buffer.old (L.waiting lane.new) buffer.new (λ h. L.takes lane.old h lane.new) (string_bytes word)) }
{
    match lane.take(buffer) {
        Ok(Some(n)) => format!(in heap; "{}", Word(&buffer[..n])),
        Ok(None) => String::from_str(heap, "nothing"),
        Err(fault) => format!(in heap; "refused-{}", Refusal::from(fault)),
    }
}
