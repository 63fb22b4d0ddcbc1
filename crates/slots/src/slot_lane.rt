ghost use Rattle.std.specs.Prelude.{◌≡◌, true};
ghost use Rattle.lane.specs.Carried.{all_carried};
ghost use Rattle.slots.specs.Tables.{view, waits};

use crate::table::Table;
use lane::{Lane, MAX_FRAME, carries, holds_frames};
use refusal::{BufferTooShort, UnsoundFrame};

// A lane with room for eight frames: a put is lost where eight wait, and a take hands out the oldest.
#[derive(Drop)]
pub struct SlotLane {
    table: Table<MAX_FRAME>,
    ghost carried: { all_carried (waits (view table)) ≡ true },
}

impl SlotLane {
    ghost use Rattle.std.specs.Prelude.{[]};
    ghost use Rattle.slots.specs.Slots.{table_of, in_slots};
    ghost use Rattle.slots.specs.Tables.{blank};

    // A lane in which nothing waits.
    pub fn new() -> Self
        ensures empty { in_slots result ≡ [] }
        ensures blank { table_of result ≡ blank }
    {
        SlotLane {
            table: Table::new(),
        }
    }
}

// An impl's own clauses replace the trait's, and with `stays` alone the check refuses it: so the trait's are written again.
impl Lane for SlotLane {
    ghost use Rattle.std.specs.Prelude.{IfOk, OnErr, OnOk};
    ghost use Rattle.lane.specs.Calls.{Put, Take, Handed};
    ghost use Rattle.slots.specs.Slots.{in_slots, SlotPuts, SlotTakes};

    ghost waiting = { in_slots };

    ghost puts = { SlotPuts };

    ghost takes = { SlotTakes };

    ghost carried = { λ s. s.carried };

    #[tactic(auto, using(lane::proofs::Worns::Worn_same, lane::proofs::Worns::Worn_lost))]
    fn put(&mut self, frame: &[u8]) -> Result<(), UnsoundFrame>
        ensures list { Put (in_slots self.old) frame.now result (in_slots self.new) }
        ensures exact { OnOk result (SlotPuts self.old frame.now self.new) }
        ensures stays { OnErr result (self.new ≡ self.old) }
    {
        if !carries(frame.len()) {
            return Err(UnsoundFrame);
        }
        self.table.store(frame);
        Ok(())
    }

    #[tactic(auto, using(lane::proofs::Worns::Worn_same))]
    fn take(&mut self, buffer: &mut [u8]) -> Result<Option<usize>, BufferTooShort>
        ensures list { Take (in_slots self.old) buffer.old result (in_slots self.new) buffer.new }
        ensures exact { IfOk result (λ o. Handed (λ h. SlotTakes self.old h self.new) o buffer.new) }
        ensures stays { OnErr result (self.new ≡ self.old) }
    {
        if !holds_frames(buffer.len()) {
            return Err(BufferTooShort);
        }
        let Some(frame) = self.table.hand_out() else {
            return Ok(None);
        };
        let frame = frame.as_slice();
        buffer[..frame.len()].copy_from_slice(frame);
        Ok(Some(frame.len()))
    }
}
