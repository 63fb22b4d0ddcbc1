// The worked examples of the documents.
#![tactic(auto)]

ghost use Rattle.std.specs.Prelude.{◌≡◌, Ok};
ghost use Rattle.refusal.specs.Answers.{answer};
ghost use Rattle.ihex.specs.Meaning.{content};
ghost use Rattle.figures.specs.Table.{Figures, cell_section};

use ihex::{Record, RecordFault};

// The line of a load cell's section: reading -300, tare 20, latch 0.
const CELL_LINE: &[u8; 21] = b":05810000FED400140094";

// Reads the first example of the table; its contract has the whole of it.
#[tactic(auto, using(crate::proofs::Copies::copies))]
pub fn worked_examples() -> Result<Record, RecordFault>
    ensures table { Figures }
    ensures first { answer content result ≡ Ok cell_section }
{
    Record::read(CELL_LINE)
}

// What the program prints of small files.
#[cfg(test)]
mod tests {
    use image::report;
    use std::test::Fail;

    #[test]
    fn a_cell_and_the_end(rt: HostRuntime) -> Result<(), Fail> {
        let page = report(rt.alloc(), b":05810000FED400140094\r\n:00000001FF\r\n")?;
        assert_eq!(rt;
            page.as_str(),
            "data records: 1\nbytes: 5\nlowest offset: 8100h\nhighest offset: 8100h\nend record: yes"
        );
        Ok(())
    }

    #[test]
    fn an_empty_file(rt: HostRuntime) -> Result<(), Fail> {
        let page = report(rt.alloc(), b"")?;
        assert_eq!(rt;
            page.as_str(),
            "data records: 0\nbytes: 0\noffsets: none\nend record: no"
        );
        Ok(())
    }

    #[test]
    fn a_wrong_sum_in_line_2(rt: HostRuntime) -> Result<(), Fail> {
        let page = report(rt.alloc(), b":00000001FF\r\n:05810000FED400140095\r\n")?;
        assert_eq!(rt; page.as_str(), "refused,2,5");
        Ok(())
    }

    #[test]
    fn a_last_line_without_cr_lf(rt: HostRuntime) -> Result<(), Fail> {
        let page = report(rt.alloc(), b":00000001FF\n")?;
        assert_eq!(rt; page.as_str(), "refused,1,17");
        Ok(())
    }
}

// Frames over lanes.
#[cfg(test)]
mod lane_tests {
    use hdlc::{Frame, SequenceNumber};
    use lane::{Lane, Losing, MAX_FRAME};
    use slots::SlotLane;
    use std::process::Abort;
    use std::test::Fail;

    fn put_ready<L: Lane>(rt: &impl Abort, lane: &mut L, n: u8) -> Result<(), Fail> {
        let mut buffer = [0; MAX_FRAME];
        let frame = Frame::receive_ready(SequenceNumber::modulo(n));
        assert!(rt; frame.encode(&mut buffer).is_ok());
        Ok(lane.put(&buffer[0..2])?)
    }

    // The number of the RR frame that comes next.
    fn take_ready<L: Lane>(rt: &impl Abort, lane: &mut L) -> Result<Option<u8>, Fail> {
        let mut buffer = [0; MAX_FRAME];
        let Some(n) = lane.take(&mut buffer)? else {
            return Ok(None);
        };
        assert!(rt; n <= MAX_FRAME);
        match Frame::decode(&buffer[0..n])? {
            Frame::ReceiveReady { number } => Ok(Some(number.value())),
            Frame::Information { .. } => Err(Fail::new("no RR frame")),
        }
    }

    #[test]
    fn the_third_put_is_dropped(rt: HostRuntime) -> Result<(), Fail> {
        let mut lane = Losing::new(SlotLane::new(), 3);
        for n in 0..4 {
            put_ready(&rt, &mut lane, n)?;
        }
        assert_eq!(rt; take_ready(&rt, &mut lane)?, Some(0));
        assert_eq!(rt; take_ready(&rt, &mut lane)?, Some(1));
        assert_eq!(rt; take_ready(&rt, &mut lane)?, Some(3));
        assert_eq!(rt; take_ready(&rt, &mut lane)?, None);
        Ok(())
    }

    #[test]
    fn a_ninth_frame_is_lost(rt: HostRuntime) -> Result<(), Fail> {
        let mut lane = SlotLane::new();
        for n in 0..9 {
            put_ready(&rt, &mut lane, n)?;
        }
        for n in 0..8 {
            assert_eq!(rt; take_ready(&rt, &mut lane)?, Some(n));
        }
        assert_eq!(rt; take_ready(&rt, &mut lane)?, None);
        Ok(())
    }
}
