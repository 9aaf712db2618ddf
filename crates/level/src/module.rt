// A module: up, down and echo lanes.
ghost use Rattle.std.specs.Prelude.{◌≡◌, [], ◌∷◌};
ghost use Rattle.item.specs.First.{Leads};
ghost use Rattle.level.specs.Module.{Rules, Level, level_started, ready, StepsAt, TakesAt};

use item::{Band, Item, Refusal, Way};
use lane::Lane;

pub trait Module: Sized {
    ghost rules: { Rules };

    ghost level: { Self → Level rules };

    fn new() -> Self
        ensures starts { level result ≡ level_started rules };

    /// Every lane goes back to its first state, with nothing ready.
    fn start(&mut self)
        ensures starts { level self.new ≡ level_started rules };

    fn step(&mut self, way: Way, x: Item) -> Result<(), Refusal>
        ensures steps { StepsAt rules level way self.old x result self.new };

    /// The first item ready on a lane; it stays.
    fn first(&self, way: Way) -> Option<Item>
        ensures leads { Leads (ready way (level self.now)) result };

    fn take(&mut self, way: Way) -> Option<Item>
        ensures takes { TakesAt level way self.old result self.new };
}

/// The module that is made of these lanes: one up, and two alike for what goes down.
// The lane up has a type of its own, and a lane as `dyn` has no rule to promise by: so each call matches on the way.
#[derive(Drop)]
pub struct Lanes<U, D> {
    pub up: U,
    pub down: D,
    pub echo: D,
}

impl<U: Lane + Drop, D: Lane + Drop> Module for Lanes<U, D> {
    ghost rules = { record { UpState = U.Lane.State; DownState = D.Lane.State; EchoState = D.Lane.State; up = U.Lane.rule; down = D.Lane.rule; echo = D.Lane.rule } };

    ghost level = { λ m. record { up = U.Lane.holds m.up; down = D.Lane.holds m.down; echo = D.Lane.holds m.echo } };

    fn new() -> Self {
        Lanes {
            up: U::new(),
            down: D::new(),
            echo: D::new(),
        }
    }

    fn start(&mut self) {
        self.up = U::new();
        self.down = D::new();
        self.echo = D::new();
    }

    fn step(&mut self, way: Way, x: Item) -> Result<(), Refusal> {
        match way {
            Way::Up => self.up.step(x),
            Way::Down(Band::Records) => self.down.step(x),
            Way::Down(Band::Echo) => self.echo.step(x),
        }
    }

    fn first(&self, way: Way) -> Option<Item> {
        match way {
            Way::Up => self.up.first(),
            Way::Down(Band::Records) => self.down.first(),
            Way::Down(Band::Echo) => self.echo.first(),
        }
    }

    fn take(&mut self, way: Way) -> Option<Item> {
        match way {
            Way::Up => self.up.take(),
            Way::Down(Band::Records) => self.down.take(),
            Way::Down(Band::Echo) => self.echo.take(),
        }
    }
}
