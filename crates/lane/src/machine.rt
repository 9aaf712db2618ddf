// Lanes that make at most a few items ready at a time: a state machine, and the few items.
ghost use Rattle.std.specs.Prelude.{◌≡◌, List};
ghost use Rattle.item.specs.declared.Item.{Item};
ghost use Rattle.lane.specs.Few.{items};
ghost use Rattle.lane.specs.Rule.{Rule, holding, each};

use crate::Lane;
use crate::few::Few;
use item::{Item, Refusal};

/// A state, and what each item makes of it.
pub trait Machine: Sized {
    ghost State: { Type 0 };

    ghost rule: { Rule State };

    ghost state: { Self → State };

    /// The first state.
    fn new() -> Self
        ensures starts { state result ≡ rule.first };

    /// The items that an item makes ready; the state that it makes follows.
    fn does(&mut self, x: Item) -> Few
        ensures does { holding (state self.new) (items result) ≡ rule.does (state self.old) x };
}

/// What each item makes ready, whatever came before it.
pub trait Mapping: Default {
    ghost gives: { Item → List Item };

    fn give(x: Item) -> Few
        ensures gives { items result ≡ gives x };
}

/// It is a machine with one state.
impl<G: Mapping> Machine for G {
    ghost State = { Unit {0} };

    ghost rule = { each G.Mapping.gives };

    ghost state = { λ _. tt };

    fn new() -> G {
        G::default()
    }

    fn does(&mut self, x: Item) -> Few {
        G::give(x)
    }
}

/// The lane of a machine.
#[derive(Drop)]
pub struct MachineLane<M> {
    machine: M,
    ready: Few,
}

impl<M: Machine> Lane for MachineLane<M> {
    ghost State = { M.Machine.State };

    ghost rule = { M.Machine.rule };

    ghost holds = { λ l. holding (M.Machine.state l.machine) (items l.ready) };

    fn new() -> Self {
        MachineLane {
            machine: M::new(),
            ready: Few::Zero,
        }
    }

    fn step(&mut self, x: Item) -> Result<(), Refusal> {
        let Few::Zero = self.ready else {
            return Err(Refusal::NoSpace);
        };
        self.ready = self.machine.does(x);
        Ok(())
    }

    fn first(&self) -> Option<Item> {
        self.ready.first()
    }

    fn take(&mut self) -> Option<Item> {
        self.ready.take()
    }
}
