ghost use Rattle.std.specs.Prelude.{◌≡◌, ◌^◌, ◌<◌, ◌≤◌, true, length};
ghost use Rattle.bounded.specs.Held.{held};
ghost use Rattle.ihex.specs.Digits.{octets};

use crate::fault::RecordFault;
use bounded::Bytes;

// The most bytes that a data record has.
pub const MAX_DATA: usize = 128;

// A data record: 1 to 128 bytes, and the offset at which they lie.
// The offset stands last: before the bytes, padding would follow it and be copied with them, by a call for each copy.
#[derive(Clone, Copy)]
pub struct DataRecord {
    data: Bytes<MAX_DATA>,
    offset: u16,
    ghost fits: { offset < 2 ^ 16 },
    ghost some: { 1 ≤ length (held «data») },
    ghost narrow: { octets (held «data») ≡ true },
}

impl DataRecord {
    ghost use Rattle.refusal.specs.Answers.{answer};
    ghost use Rattle.ihex.specs.Meaning.{data_content, data_of};
    ghost use Rattle.ihex.specs.Reading.{data_record};

    // The record of these bytes at this offset, or a refusal where there are none or more than 128.
    pub fn new(offset: u16, data: &[u8]) -> Result<Self, RecordFault>
        ensures { answer data_content result ≡ data_record offset «data».now }
    {
        if data.is_empty() {
            return Err(RecordFault::Unknown);
        }
        let data = Bytes::from_slice(data).ok_or(RecordFault::Unknown)?;
        Ok(DataRecord { data, offset })
    }

    pub fn offset(&self) -> u16
        ensures { result ≡ self.now.offset }
    {
        self.offset
    }

    pub fn data(&self) -> &[u8]
        ensures { result.now ≡ data_of self.now }
    {
        self.data.as_slice()
    }
}
