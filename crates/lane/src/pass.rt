// The lane that passes every item as it is.
ghost use Rattle.std.specs.Prelude.{◌≡◌};
ghost use Rattle.lane.specs.Pass.{itself};

use crate::few::Few;
use crate::machine::{MachineLane, Mapping};
use item::Item;

#[derive(Clone, Copy, Default)]
pub struct Passing;

impl Mapping for Passing {
    ghost gives = { itself };

    fn give(x: Item) -> Few {
        Few::One(x)
    }
}

pub type Pass = MachineLane<Passing>;
