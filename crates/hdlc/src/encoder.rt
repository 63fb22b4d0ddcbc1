// Encoding: the octets of a frame, at the front of a buffer.

ghost use Rattle.std.specs.Prelude.{◌≡◌, take, IfOk};
ghost use Rattle.hdlc.specs.Controls.{octet_of};
ghost use Rattle.hdlc.specs.Encoding.{encoded, encoded_to};
ghost use Rattle.hdlc.specs.Laws.{DecodesBack};
ghost use Rattle.hdlc.specs.Meaning.{message_of};
ghost use Rattle.hdlc.specs.Messages.{control_of, information_of, frame};

use crate::control::Control;
use crate::fault::EncodeFault;
use crate::frame::Frame;

impl<'a> Frame<'a> {
    fn control(self) -> Control
        ensures { octet_of result ≡ control_of (message_of self.entry) }
    {
        match self {
            Frame::Information { number, .. } => Control::Information(number),
            Frame::ReceiveReady { number } => Control::ReceiveReady(number),
        }
    }

    fn information(self) -> &'a [u8]
        ensures { result.now ≡ information_of (message_of self.entry) }
    {
        match self {
            Frame::Information { information, .. } => information,
            Frame::ReceiveReady { .. } => &[],
        }
    }

    // Writes the frame at the front of `out` and answers its length.
    // A length, as std's own reads answer: a slice lent from `out` would need a clause on what `out` holds once it is given back.
    // A frame that is refused leaves the buffer as it was.
    pub fn encode(self, out: &mut [u8]) -> Result<usize, EncodeFault>
        ensures answer { result ≡ encoded (message_of self.entry) out.old }
        ensures buffer { out.new ≡ encoded_to (message_of self.entry) out.old }
        ensures front { IfOk result (λ n. take n out.new ≡ frame (message_of self.entry)) }
        ensures decodes_back { DecodesBack (message_of self.entry) }
    {
        let information = self.information();
        if information.len() > Frame::MAX_INFORMATION {
            return Err(EncodeFault::TooLong);
        }
        let length = Frame::HEADER + information.len();
        if out.len() < length {
            return Err(EncodeFault::BufferTooShort);
        }
        out[0] = Frame::ADDRESS;
        out[1] = u8::from(self.control());
        out[Frame::HEADER..length].copy_from_slice(information);
        Ok(length)
    }
}
