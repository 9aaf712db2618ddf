// A line discipline: an up lane that echoes, and a down lane.
ghost use Rattle.std.specs.Prelude.{◌≡◌, [], ◌∷◌};
ghost use Rattle.item.specs.First.{Leads};
ghost use Rattle.level.specs.Discipline.{TopRules, Top, top_started, top_ready, StepsUp, StepsDown, TakesWay};

use item::{Band, Item, Refusal, Way};
use lane::Lane;
use lane::reply::ReplyLane;

pub trait Discipline: Sized {
    ghost rules: { TopRules };

    ghost top: { Self → Top rules };

    fn new() -> Self
        ensures starts { top result ≡ top_started rules };

    /// Both lanes go back to their first states, with nothing ready.
    fn start(&mut self)
        ensures starts { top self.new ≡ top_started rules };

    fn step_up(&mut self, x: Item) -> Result<(), Refusal>
        ensures steps { StepsUp rules top self.old x result self.new };

    fn step_down(&mut self, x: Item) -> Result<(), Refusal>
        ensures steps { StepsDown rules top self.old x result self.new };

    /// The first ready item that goes a way; it stays.
    fn first(&self, way: Way) -> Option<Item>
        ensures leads { Leads (top_ready way (top self.now)) result };

    fn take(&mut self, way: Way) -> Option<Item>
        ensures takes { TakesWay top way self.old result self.new };
}

/// The discipline that is made of these lanes.
// Its lanes have types of their own, and the echo is the reply of one: so each call matches on the way, as a module's do.
#[derive(Drop)]
pub struct TopLanes<U, D> {
    pub up: U,
    pub down: D,
}

impl<U: ReplyLane + Drop, D: Lane + Drop> Discipline for TopLanes<U, D> {
    ghost rules = { record { UpState = U.ReplyLane.State; DownState = D.Lane.State; up = U.ReplyLane.rule; down = D.Lane.rule } };

    ghost top = { λ d. record { up = U.ReplyLane.holds d.up; down = D.Lane.holds d.down } };

    fn new() -> Self {
        TopLanes {
            up: U::new(),
            down: D::new(),
        }
    }

    fn start(&mut self) {
        self.up = U::new();
        self.down = D::new();
    }

    fn step_up(&mut self, x: Item) -> Result<(), Refusal> {
        self.up.step(x)
    }

    fn step_down(&mut self, x: Item) -> Result<(), Refusal> {
        self.down.step(x)
    }

    fn first(&self, way: Way) -> Option<Item> {
        match way {
            Way::Up => self.up.first(),
            Way::Down(Band::Records) => self.down.first(),
            Way::Down(Band::Echo) => self.up.first_reply(),
        }
    }

    fn take(&mut self, way: Way) -> Option<Item> {
        match way {
            Way::Up => self.up.take(),
            Way::Down(Band::Records) => self.down.take(),
            Way::Down(Band::Echo) => self.up.take_reply(),
        }
    }
}
