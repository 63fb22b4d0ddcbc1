ghost use Rattle.std.specs.Prelude.{Some};
ghost use Rattle.transmission.specs.Prints.{traffic_text};

use std::fmt;

// What a lane was given, and what came of it.
#[derive(Clone, Copy, PartialEq, Eq, Default, Debug)]
pub struct Traffic {
    // frames put
    pub put: usize,
    // frames taken
    pub taken: usize,
    // puts after which nothing could be taken
    pub lost: usize,
}

impl fmt::Display for Traffic {
    ghost output = { λ t. Some (traffic_text t) };

    fn fmt<W: fmt::Write>(&self, f: &mut fmt::Formatter<W>) -> fmt::Result {
        let Traffic { put, taken, lost } = *self;
        write!(f, "{put} put, {taken} taken, {lost} lost")
    }
}
