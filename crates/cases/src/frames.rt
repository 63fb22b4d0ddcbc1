// Cases of frames.

ghost use Rattle.std.specs.Prelude.{◌≡◌, IfOk, Some, string_bytes};
ghost use Rattle.hdlc.specs.Decoding.{decoding};
ghost use Rattle.hdlc.specs.Encoding.{encoded_to};
ghost use Rattle.hdlc.specs.Meaning.{message_of};
ghost use Rattle.cases.specs.Frames.{message_words, decode_words, frame_written};
ghost use Rattle.cases.specs.Words.{write_words};

use crate::words::{Word, describe_written};
use hdlc::Frame;
use refusal::Refusal;
use std::alloc::{AllocError, Global};
use std::fmt;

// A frame in words; the `Told` of `records` says why the two are not one.
#[derive(Clone, Copy)]
struct Told<'a>(Frame<'a>);

impl fmt::Display for Told<'_> {
    ghost output = { λ t. Some (message_words (message_of t.0)) };

    fn fmt<W: fmt::Write>(&self, f: &mut fmt::Formatter<W>) -> fmt::Result {
        match self.0 {
            Frame::Information {
                number,
                information,
            } => write!(f, "information {} {}", number.value(), Word(information)),
            Frame::ReceiveReady { number } => write!(f, "ready {}", number.value()),
        }
    }
}

// The frame that a string of octets is.
pub fn decode(heap: Global, octets: &[u8]) -> Result<String, AllocError>
    ensures { IfOk result (λ line. string_bytes line ≡ decode_words (decoding octets.now)) }
{
    match Frame::decode(octets) {
        Ok(frame) => format!(in heap; "{}", Told(frame)),
        Err(fault) => format!(in heap; "refused {}", Refusal::from(fault)),
    }
}

// The length that is written of a frame, or the refusal.
fn write_frame(frame: Frame<'_>, out: &mut [u8]) -> Result<usize, Refusal>
    ensures answer { result ≡ frame_written (message_of frame.entry) out.old }
    ensures buffer { out.new ≡ encoded_to (message_of frame.entry) out.old }
{
    Ok(frame.encode(out)?)
}

// A frame written to a buffer.
pub fn encode(heap: Global, frame: Frame<'_>, out: &mut [u8]) -> Result<String, AllocError>
    ensures { IfOk result (λ line. string_bytes line ≡ write_words (frame_written (message_of frame.entry) out.old) (encoded_to (message_of frame.entry) out.old)) }
{
    let answer = write_frame(frame, out);
    describe_written(heap, answer, out)
}
