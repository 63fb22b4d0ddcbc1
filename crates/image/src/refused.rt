ghost use Rattle.std.specs.Prelude.{Some};
ghost use Rattle.image.specs.Prints.{refused_text};

use crate::fault::ImageFault;
use refusal::Refusal;
use std::fmt;

// The line of a file that is turned down, counted from 1, and why.
#[derive(Clone, Copy, Debug)]
pub struct Refused {
    pub line: usize,
    pub fault: ImageFault,
}

impl fmt::Display for Refused {
    ghost output = { λ x. Some (refused_text x) };

    fn fmt<W: fmt::Write>(&self, f: &mut fmt::Formatter<W>) -> fmt::Result {
        let line = self.line;
        let refusal = Refusal::from(self.fault);
        write!(f, "refused,{line},{refusal}")
    }
}
