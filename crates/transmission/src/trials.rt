// Trials of the lanes that there are, each from the beginning.

ghost use Rattle.std.specs.Prelude.{◌≡◌, [], ◌∷◌, Some};
ghost use Rattle.std.specs.List.{AllByRecursion};
ghost use Rattle.transmission.specs.Layers.{Trial, IsFresh, fresh, kth_of, lost_of};
ghost use Rattle.transmission.specs.Prints.{trials_text};
ghost use Rattle.transmission.specs.Sending.{Transmitted};
ghost use Rattle.transmission.specs.Tried.{Tried};

use crate::sending::transmit;
use crate::stack::Stack;
use crate::traffic::Traffic;
use lane::Losing;
use slots::SlotLane;
use std::fmt;

// Sends the records at the front of a text over a lane. Over one in which nothing waits it is known what comes of each.
pub fn over<L: Stack + Drop>(mut lane: L, text: &[u8]) -> Traffic
    ensures sent { (left : L) × Transmitted L.Lane lane text.now result left }
    ensures trial { L.waiting lane ≡ [] → Trial (L.layers lane) text.now result }
    ensures lost { L.waiting lane ≡ [] → AllByRecursion IsFresh (L.layers lane) → result.lost ≡ lost_of (L.layers lane) result.put }
{
    transmit(&mut lane, text)
}

// Over a slot lane.
pub fn over_slots(text: &[u8]) -> Traffic
    ensures trial { Trial [] text.now result }
    ensures none_lost { result.lost ≡ 0 }
{
    over(SlotLane::new(), text)
}

// Over a layer that drops every `every`-th put.
pub fn over_losing(text: &[u8], every: u8) -> Traffic
    ensures trial { Trial (fresh every ∷ []) text.now result }
    ensures every_kth_lost { result.lost ≡ kth_of every result.put }
{
    over(Losing::new(SlotLane::new(), every), text)
}

// Over two such layers.
pub fn over_two(text: &[u8], outer: u8, inner: u8) -> Traffic
    ensures trial { Trial (fresh outer ∷ fresh inner ∷ []) text.now result }
    ensures shares_lost { result.lost ≡ lost_of (fresh outer ∷ fresh inner ∷ []) result.put }
{
    over(
        Losing::new(Losing::new(SlotLane::new(), inner), outer),
        text,
    )
}

// The puts that the layers drop: the inner one every 10th, the outer one every 7th.
const INNER: u8 = 10;

const OUTER: u8 = 7;

// A trial of each lane.
#[derive(Clone, Copy)]
pub struct Trials {
    // a slot lane alone
    pub slots: Traffic,
    // a layer over it that drops every 10th put
    pub losing: Traffic,
    // and a layer over both that drops every 7th
    pub layered: Traffic,
}

impl Trials {
    // Sends the records at the front of a text over each lane.
    pub fn of(text: &[u8]) -> Self
        ensures { Tried text.now result }
    {
        Trials {
            slots: over_slots(text),
            losing: over_losing(text, INNER),
            layered: over_two(text, OUTER, INNER),
        }
    }
}

impl fmt::Display for Trials {
    ghost output = { λ t. Some (trials_text t) };

    fn fmt<W: fmt::Write>(&self, f: &mut fmt::Formatter<W>) -> fmt::Result {
        let Trials {
            slots,
            losing,
            layered,
        } = *self;
        write!(
            f,
            "slot lane: {slots}\nevery 10th put dropped: {losing}\nand every 7th before that: {layered}"
        )
    }
}
