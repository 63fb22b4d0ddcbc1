ghost use Rattle.std.specs.Prelude.{IfOk};
ghost use Rattle.lane.specs.Calls.{Handed, Passed, Passes};
ghost use Rattle.lane.specs.Runs.{RunsWear};

use crate::interface::Lane;
use crate::length::MAX_FRAME;
use refusal::UnsoundFrame;

// Puts a frame on a lane, and takes from it once.
#[tactic(auto, using(crate::proofs::Runs::runs_wear, crate::proofs::Worns::Worn_trans))]
pub fn put_then_take<L: Lane>(
    lane: &mut L,
    frame: &[u8],
    buffer: &mut [u8; MAX_FRAME],
) -> Result<Option<usize>, UnsoundFrame>
    ensures list { Passed (L.waiting lane.old) frame.now buffer.old result (L.waiting lane.new) buffer.new }
    ensures exact { IfOk result (λ o. Handed (λ h. Passes L.puts L.takes lane.old frame.now h lane.new) o buffer.new) }
    ensures runs { RunsWear }
{
    lane.put(frame)?;
    Ok(lane.take(buffer).unwrap())
}
