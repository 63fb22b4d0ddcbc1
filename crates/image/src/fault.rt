ghost use Rattle.std.specs.Prelude.{◌≡◌};
ghost use Rattle.image.specs.Faults.{refusal_of};
ghost use Rattle.image.specs.declared.fault.ImageFault.TheVariants.{Record};

use ihex::RecordFault;
use refusal::Refusal;

// Why a text does not begin with a line of an image file.
#[derive(Clone, Copy, PartialEq, Eq, Debug)]
pub enum ImageFault {
    // no line is there, no CR LF closes it, or over 267 characters stand before that
    Line,
    // the line is no record
    Record(RecordFault),
}

impl From<RecordFault> for ImageFault {
    ghost from_gives = { λ f r. r ≡ Record f };

    fn from(fault: RecordFault) -> ImageFault {
        ImageFault::Record(fault)
    }
}

impl From<ImageFault> for Refusal {
    ghost from_gives = { λ f r. r ≡ refusal_of f };

    fn from(fault: ImageFault) -> Refusal {
        match fault {
            ImageFault::Line => Refusal::BadLine,
            ImageFault::Record(fault) => Refusal::from(fault),
        }
    }
}
