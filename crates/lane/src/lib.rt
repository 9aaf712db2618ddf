// A lane: one way through one level. It has a state and a list of ready items, and turns each item that it is stepped
// with into the next ready list. A lane's every value is legal, and any can stand in a pile over any driver.
// Promises: every lane does what its rule says, and a refused step changes nothing.
#![tactic(auto)]

pub mod few;
pub mod machine;
pub mod pass;
pub mod reply;

ghost use Rattle.std.specs.Prelude.{◌≡◌};
ghost use Rattle.item.specs.First.{Leads};
ghost use Rattle.lane.specs.Rule.{Rule, Held, started, Steps, Takes};

use item::{Item, Refusal};

pub trait Lane: Sized {
    ghost State: { Type 0 };

    ghost rule: { Rule State };

    ghost holds: { Self → Held State };

    /// A lane just started.
    fn new() -> Self
        ensures starts { holds result ≡ started rule };

    fn step(&mut self, x: Item) -> Result<(), Refusal>
        ensures steps { Steps rule holds self.old x result self.new };

    /// The first ready item; it stays.
    fn first(&self) -> Option<Item>
        ensures leads { Leads (holds self.now).ready result };

    fn take(&mut self) -> Option<Item>
        ensures takes { Takes holds self.old result self.new };
}
