// Strings of bytes with a stated limit, in fixed memory.
#![tactic(auto)]

ghost use Rattle.std.specs.Prelude.{◌≡◌, ◌≤◌, length};

// At most MAX bytes. They stand at the front of an array, with their count; no heap is used.
// It is `Copy`, so that what holds it can be, and an array is filled with empty ones; the kit's `ArrayVec` is not.
#[derive(Clone, Copy)]
pub struct Bytes<const MAX: usize> {
    array: [u8; MAX],
    len: usize,
    ghost few: { len ≤ MAX },
    ghost room: { length array ≡ MAX },
}

impl<const MAX: usize> Bytes<MAX> {
    ghost use Rattle.std.specs.Prelude.{[], is_some, option_map, unwrap_or};
    ghost use Rattle.std.specs.Bool.{OnFalse};
    ghost use Rattle.bounded.specs.Held.{held, within};

    pub fn empty() -> Self
        ensures { held result ≡ [] }
    {
        Bytes {
            array: [0; MAX],
            len: 0,
        }
    }

    // The same bytes, or none where they are more than MAX.
    pub fn from_slice(bytes: &[u8]) -> Option<Self>
        ensures { option_map held result ≡ within MAX bytes.now }
    {
        let len = bytes.len();
        if len > MAX {
            return None;
        }
        let mut array = [0; MAX];
        array[..len].copy_from_slice(bytes);
        Some(Bytes { array, len })
    }

    // Holds these bytes from now on, and answers whether they fit; where they are more than MAX, it stays as it was.
    pub fn fill(&mut self, bytes: &[u8]) -> bool
        ensures fits { result ≡ is_some (within MAX bytes.now) }
        ensures holds { held self.new ≡ unwrap_or (within MAX bytes.now) (held self.old) }
        ensures stays { OnFalse result (self.new ≡ self.old) }
    {
        if bytes.len() > MAX {
            return false;
        }
        self.len = bytes.len();
        self.array[..bytes.len()].copy_from_slice(bytes);
        true
    }

    pub fn as_slice(&self) -> &[u8]
        ensures bytes { result.now ≡ held self.now }
        ensures few { length result.now ≤ MAX }
    {
        &self.array[..self.len]
    }
}
