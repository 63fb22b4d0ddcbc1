ghost use Rattle.std.specs.Prelude.{◌≡◌, ℕ, true, List, IfOk, Option, OnOk};
ghost use Rattle.lane.specs.Calls.{Put, Take, Handed};
ghost use Rattle.lane.specs.Carried.{all_carried};

use refusal::{BufferTooShort, UnsoundFrame};

// A cable in one direction. It may lose, repeat and hold back frames, but never reorder or alter them.
pub trait Lane {
    // the frames that wait, the oldest first
    ghost waiting: { Self → List (List ℕ) };

    // what an accepted put of a frame does to this very lane, for the layers above it
    ghost puts: { Self → List ℕ → Self → Type 0 };

    // what a take does that hands out nothing or a frame
    ghost takes: { Self → Option (List ℕ) → Self → Type 0 };

    // Adds a frame of 2 to 269 octets at the end; any other is refused.
    fn put(&mut self, frame: &[u8]) -> Result<(), UnsoundFrame>
        ensures list { Put (waiting self.old) frame.now result (waiting self.new) }
        ensures exact { OnOk result (puts self.old frame.now self.new) };

    // Hands out the frame that comes next, at the front of a buffer of at least 269 octets, or nothing yet.
    // It answers a length, as std's own reads do: a slice lent from the buffer would need a clause on what the buffer holds once it is given back.
    fn take(&mut self, buffer: &mut [u8]) -> Result<Option<usize>, BufferTooShort>
        ensures list { Take (waiting self.old) buffer.old result (waiting self.new) buffer.new }
        ensures exact { IfOk result (λ o. Handed (λ h. takes self.old h self.new) o buffer.new) };

    // only frames that a lane carries wait in it
    ghost carried: { (s : Self) → all_carried (waiting s) ≡ true };
}
