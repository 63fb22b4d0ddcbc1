ghost use Rattle.std.specs.Prelude.{List};
ghost use Rattle.transmission.specs.Layers.{Layer};
ghost use Rattle.transmission.specs.Stacks.{Prompt, no_layers, slots_prompt, layer_over, losing_prompt};

use lane::{Lane, Losing};
use slots::SlotLane;

// A lane that hands out at once what it does not drop, and of which it is known which puts those are.
pub trait Stack: Lane {
    // its losing layers, the outermost first
    ghost layers: { Self → List Layer };

    // where nothing waits, a put is handed out by the next take unless a layer drops it
    ghost prompt: { Prompt Self.Lane layers };
}

impl Stack for SlotLane {
    ghost layers = { no_layers };

    ghost prompt = { slots_prompt };
}

impl<L: Stack> Stack for Losing<L> {
    ghost layers = { layer_over L.layers };

    ghost prompt = { losing_prompt L.prompt };
}
