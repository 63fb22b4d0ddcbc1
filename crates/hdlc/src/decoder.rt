// Decoding: the frame that a string of octets is, if it is one.

ghost use Rattle.std.specs.Prelude.{◌≡◌};
ghost use Rattle.refusal.specs.Answers.{answer};
ghost use Rattle.hdlc.specs.Decoding.{decoding};
ghost use Rattle.hdlc.specs.Laws.{Canonical};
ghost use Rattle.hdlc.specs.Meaning.{message_of};

use crate::control::Control;
use crate::frame::Frame;
use refusal::UnsoundFrame;

impl<'a> Frame<'a> {
    // The frame that these octets are.
    pub fn decode(octets: &'a [u8]) -> Result<Frame<'a>, UnsoundFrame>
        ensures answer { answer message_of result ≡ decoding octets.now }
        ensures canonical { Canonical octets.now (answer message_of result) }
    {
        let [Frame::ADDRESS, control, information @ ..] = octets else {
            return Err(UnsoundFrame);
        };
        match Control::try_from(*control)? {
            Control::Information(number) if information.len() <= Frame::MAX_INFORMATION => {
                Ok(Frame::Information {
                    number,
                    information,
                })
            }
            Control::ReceiveReady(number) if information.is_empty() => {
                Ok(Frame::ReceiveReady { number })
            }
            _ => Err(UnsoundFrame),
        }
    }
}
