ghost use Rattle.std.specs.Prelude.{◌≡◌, Some};
ghost use Rattle.image.specs.Prints.{offsets_text};
ghost use Rattle.image.specs.Surveys.{only, widened};

use std::fmt;

// The lowest and the highest offset of some data records.
#[derive(Clone, Copy, PartialEq, Eq)]
pub struct Offsets {
    pub lowest: u16,
    pub highest: u16,
}

impl From<u16> for Offsets {
    ghost from_gives = { λ offset o. o ≡ only offset };

    // Those of one record.
    fn from(offset: u16) -> Offsets {
        Offsets {
            lowest: offset,
            highest: offset,
        }
    }
}

impl Offsets {
    // These and one more.
    pub fn with(self, offset: u16) -> Offsets
        ensures { result ≡ widened (Some self) offset }
    {
        Offsets {
            lowest: self.lowest.min(offset),
            highest: self.highest.max(offset),
        }
    }
}

impl fmt::Display for Offsets {
    ghost output = { λ o. Some (offsets_text (Some o)) };

    #[tactic(auto, using(crate::proofs::Hexadecimal::hex_word))]
    fn fmt<W: fmt::Write>(&self, f: &mut fmt::Formatter<W>) -> fmt::Result {
        let Offsets { lowest, highest } = *self;
        write!(
            f,
            "lowest offset: {lowest:04X}h\nhighest offset: {highest:04X}h"
        )
    }
}

// As `Between`, a survey's offsets where there are some.
impl fmt::Debug for Offsets {
    fn fmt<W: fmt::Write>(&self, f: &mut fmt::Formatter<W>) -> fmt::Result {
        f.debug_struct("Between")
            .field("lowest", &self.lowest)
            .field("highest", &self.highest)
            .finish()
    }
}
