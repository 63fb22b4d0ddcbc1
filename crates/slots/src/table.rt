ghost use Rattle.std.specs.Prelude.{◌≡◌, ◌+◌, ◌%◌, ◌<◌, ◌≤◌};

use bounded::Bytes;

// The places of a table.
const PLACES: usize = 8;

// A table of eight places, in which frames wait in the order of their coming, around its end.
// Kept by hand, in fixed memory: a put promises to fill one place and to change no other, which no queue's contract tells.
#[derive(Drop)]
pub(crate) struct Table<const LONGEST: usize> {
    places: [Bytes<LONGEST>; PLACES],
    // the place of the oldest frame that waits
    head: usize,
    // how many wait
    count: usize,
    ghost at: { head < 8 },
    ghost few: { count ≤ 8 },
}

// The place that is n places after this one, around the table's end.
fn place_after(place: usize, n: usize) -> usize
    requires place { place < 8 }
    requires n { n ≤ 8 }
    ensures place { result ≡ (place + n) % 8 }
    ensures within { result < 8 }
{
    (place + n) % PLACES
}

impl<const LONGEST: usize> Table<LONGEST> {
    ghost use Rattle.std.specs.Prelude.{⊤, MatchOption, option_map, slice_index_or, slice_set};
    ghost use Rattle.std.specs.Borrow.{sem, follows, follows_so};
    ghost use mathlib.Core.Option.{none};
    ghost use Rattle.slots.specs.Tables.{view, blank, Stores, HandsOut};
    ghost use Rattle.bounded.specs.Held.{held, within};
    ghost use Rattle.bounded.specs.contracts.Bytes.{the_row as place_row};
    ghost use Rattle.slots.specs.contracts.table.Table.{the_row};

    pub(crate) fn new() -> Self
        ensures { view result ≡ blank }
    {
        Table {
            places: [Bytes::empty(); PLACES],
            head: 0,
            count: 0,
        }
    }

    // One place, lent for writing; every other place, and which of them wait, stay.
    fn place(&mut self, i: usize) -> &mut Bytes<LONGEST>
        requires { i < 8 }
        ensures* writes_back { sem 𝓛 (follows (the_row LONGEST.row) (place_row LONGEST.row) self.entry.ghost_name result.ghost_name (λ w. record self.old { places = slice_set self.old.places i w })) }
        ensures value { result.now ≡ slice_index_or self.old.places i result.now }
    {
        &mut self.places[i]
    }

    // Adds a frame, or loses it where all places are taken. One of over LONGEST octets changes nothing.
    #[tactic(auto, using(crate::proofs::Queues::filling))]
    pub(crate) fn store(&mut self, frame: &[u8])
        ensures { MatchOption (within LONGEST frame.now) (view self.new ≡ view self.old) (λ f. Stores (view self.old) f (view self.new)) }
    {
        if self.count < PLACES {
            let next = place_after(self.head, self.count);
            if self.place(next).fill(frame) {
                self.count += 1;
            }
        }
    }

    // Removes the oldest frame and lends it out of its place, which stays as it is.
    #[tactic(auto, using(std::proofs::lemmas::Grind::common_steps, crate::proofs::Queues::from_first))]
    pub(crate) fn hand_out(&mut self) -> Option<&Bytes<LONGEST>>
        ensures* { sem 𝓛 (follows_so (the_row LONGEST.row) (the_row LONGEST.row) self.entry.ghost_name none (λ _ _. ⊤) (λ t. HandsOut (view self.old) (option_map (λ b. held b.now) result) (view t))) }
    {
        if self.count == 0 {
            return None;
        }
        let oldest = self.head;
        self.head = place_after(self.head, 1);
        self.count -= 1;
        // all places first: the check follows no `&` from `self` straight to an element
        let places = &self.places;
        Some(&places[oldest])
    }
}
