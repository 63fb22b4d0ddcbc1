ghost use Rattle.std.specs.Prelude.{◌-◌, ◌≤◌};

use crate::interface::Lane;
use crate::length::carries;
use refusal::{BufferTooShort, UnsoundFrame};

// A layer over any lane that drops every `every`-th accepted put. Each of 0 to 255 is a k, and with 0 it drops none: an `Option<NonZeroU8>`
// has the same values, and would be taken apart at each use.
#[derive(Drop)]
pub struct Losing<L> {
    below: L,
    every: u8,
    // the accepted puts so far, modulo `every`
    passed: u8,
    ghost few: { passed ≤ every - 1 },
}

impl<L> Losing<L> {
    ghost use Rattle.std.specs.Prelude.{◌≡◌};
    ghost use Rattle.lane.specs.Drops.{EveryKth, begun, counted, dropped};

    // A layer that has seen no put yet.
    #[tactic(auto, using(crate::proofs::Drops::every_kth))]
    pub fn new(below: L, every: u8) -> Self
        ensures begun { begun below every result }
        ensures every_kth { EveryKth every }
    {
        Losing {
            below,
            every,
            passed: 0,
        }
    }

    // Counts one accepted put more, and answers whether it is dropped.
    fn count(&mut self) -> bool
        ensures drops { result ≡ dropped self.old.every self.old.passed }
        ensures counts { self.new.passed ≡ counted self.old.every self.old.passed }
        ensures every { self.new.every ≡ self.old.every }
        ensures below { self.new.below ≡ self.old.below }
    {
        if self.every == 0 {
            return false;
        }
        self.passed = (self.passed + 1) % self.every;
        self.passed == 0
    }
}

impl<L: Lane> Lane for Losing<L> {
    ghost use Rattle.std.specs.Prelude.{◌≡◌, OnErr, OnOk};
    ghost use Rattle.lane.specs.Calls.{Put};
    ghost use Rattle.lane.specs.Drops.{LayerPuts, LayerTakes};

    ghost waiting = { λ s. L.waiting s.below };

    ghost puts = { LayerPuts L.puts };

    ghost takes = { LayerTakes L.takes };

    ghost carried = { λ s. L.carried s.below };

    // An impl's own clauses replace the trait's, and with `stays` alone the check refuses it: so the trait's are written again.
    #[tactic(auto, using(crate::proofs::Worns::Worn_lost))]
    fn put(&mut self, frame: &[u8]) -> Result<(), UnsoundFrame>
        ensures list { Put (L.waiting self.old.below) frame.now result (L.waiting self.new.below) }
        ensures exact { OnOk result (LayerPuts L.puts self.old frame.now self.new) }
        ensures stays { OnErr result (self.new ≡ self.old) }
    {
        if !carries(frame.len()) {
            return Err(UnsoundFrame);
        }
        if self.count() {
            return Ok(());
        }
        self.below.put(frame)
    }

    fn take(&mut self, buffer: &mut [u8]) -> Result<Option<usize>, BufferTooShort> {
        self.below.take(buffer)
    }
}
