// A lane whose steps set two lists: one that goes on, and a reply that goes back. The up lane of a discipline is one.
ghost use Rattle.std.specs.Prelude.{◌≡◌, []};
ghost use Rattle.item.specs.First.{Leads};
ghost use Rattle.lane.specs.Reply.{ReplyRule, Both, both, begun, silent, Replies, TakesReady, TakesReply};

use crate::Lane;
use item::{Item, Refusal};

pub trait ReplyLane: Sized {
    ghost State: { Type 0 };

    ghost rule: { ReplyRule State };

    ghost holds: { Self → Both State };

    /// A lane just started.
    fn new() -> Self
        ensures starts { holds result ≡ begun rule };

    fn step(&mut self, x: Item) -> Result<(), Refusal>
        ensures steps { Replies rule holds self.old x result self.new };

    /// The first item that goes on; it stays.
    fn first(&self) -> Option<Item>
        ensures leads { Leads (holds self.now).ready result };

    fn take(&mut self) -> Option<Item>
        ensures takes { TakesReady holds self.old result self.new };

    /// The first item of the reply; it stays.
    fn first_reply(&self) -> Option<Item>
        ensures leads { Leads (holds self.now).reply result };

    fn take_reply(&mut self) -> Option<Item>
        ensures takes { TakesReply holds self.old result self.new };
}

/// Any lane, as one that never replies.
// A type of its own, so that a lane may also be a lane that replies in a way of its own, and a call on it needs no trait's name.
#[derive(Drop)]
pub struct Silent<L> {
    lane: L,
}

impl<L: Lane> ReplyLane for Silent<L> {
    ghost State = { L.Lane.State };

    ghost rule = { silent L.Lane.rule };

    ghost holds = { λ s. both (L.Lane.holds s.lane).state (L.Lane.holds s.lane).ready [] };

    fn new() -> Self {
        Silent { lane: L::new() }
    }

    fn step(&mut self, x: Item) -> Result<(), Refusal> {
        self.lane.step(x)
    }

    fn first(&self) -> Option<Item> {
        self.lane.first()
    }

    fn take(&mut self) -> Option<Item> {
        self.lane.take()
    }

    fn first_reply(&self) -> Option<Item> {
        None
    }

    fn take_reply(&mut self) -> Option<Item> {
        None
    }
}

#[cfg(test)]
mod tests {
    use super::*;
    use crate::pass::Pass;
    use std::test::Fail;

    // Both traits are known here, and no call has to name its own.
    #[test]
    fn a_lane_is_called_where_both_kinds_are_known(rt: HostRuntime) -> Result<(), Fail> {
        let mut lane = Pass::new();
        assert_eq!(rt; lane.step(Item::End), Ok(()));
        assert_eq!(rt; lane.first(), Some(Item::End));
        let mut silent: Silent<Pass> = Silent::new();
        assert_eq!(rt; silent.step(Item::End), Ok(()));
        assert_eq!(rt; silent.take(), Some(Item::End));
        assert_eq!(rt; silent.take_reply(), None);
        Ok(())
    }
}
