ghost use Rattle.std.specs.Prelude.{◌≡◌, ◌+◌, ◌^◌, ◌<◌, ◌≤◌, length};
ghost use Rattle.hdlc.specs.Messages.{information, frame};
ghost use Rattle.hdlc.specs.Numbers.{number_of};
ghost use Rattle.transmission.specs.Sending.{SentOne, Transmitted};
ghost use Rattle.transmission.specs.Tallies.{counted};

use crate::traffic::Traffic;
use hdlc::{Frame, SequenceNumber};
use image::next_record;
use lane::{Lane, MAX_FRAME, put_then_take};

impl Traffic {
    // Counts one put more, after which a frame came or did not.
    fn count(&mut self, came: bool)
        requires put { self.old.put + 1 < 2 ^ 64 }
        requires taken { self.old.taken + 1 < 2 ^ 64 }
        requires lost { self.old.lost + 1 < 2 ^ 64 }
        ensures { self.new ≡ counted self.old came }
    {
        self.put += 1;
        if came {
            self.taken += 1;
        } else {
            self.lost += 1;
        }
    }
}

// Puts a line on a lane as an I frame, and answers whether a frame could then be taken.
#[tactic(auto, using(crate::proofs::Sends::sent_one))]
fn send<L: Lane>(lane: &mut L, number: SequenceNumber, line: &[u8]) -> bool
    requires { length line.now ≤ 267 }
    ensures { SentOne L.Lane lane.old (frame (information (number_of number) line.now)) result lane.new }
{
    let mut octets = [0; MAX_FRAME];
    let frame = Frame::Information {
        number,
        information: line,
    };
    let length = frame.encode(&mut octets).unwrap();
    let mut buffer = [0; MAX_FRAME];
    let taken = put_then_take(lane, &octets[..length], &mut buffer).unwrap();
    taken.is_some()
}

// Sends the records at the front of a text over a lane, up to the first line that is none:
// each as an I frame, numbered from 0 on, and after each put a frame is taken if one comes.
pub fn transmit<L: Lane>(lane: &mut L, text: &[u8]) -> Traffic
    ensures { Transmitted L.Lane lane.old text.now result lane.new }
{
    let mut traffic = Traffic::default();
    let mut number = SequenceNumber::modulo(0);
    // What is left of the text, and no iterator: the loop then has one end, whether the text ends or a line is no record.
    let mut rest = text;
    while let Ok(entry) = next_record(rest) {
        let came = send(lane, number, entry.line);
        traffic.count(came);
        number = number.next();
        rest = entry.rest;
    }
    traffic
}
