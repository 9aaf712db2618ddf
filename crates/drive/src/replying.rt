// A list through a lane that replies. What goes on and what goes back are two lists of the caller's, lent apart: a record of both
// would be put together at one call and taken apart at the next.
ghost use Rattle.std.specs.Prelude.{◌≡◌, [], ◌++◌, OnOk};
ghost use Rattle.lane.specs.Reply.{both, ahead, behind, onward, back};
ghost use Rattle.lane.specs.Lists.{stepped, onto, after};

use item::Item;
use lane::reply::ReplyLane;
use std::alloc::AllocError;

/// What is ready to go on goes behind `out`.
fn drain_ready<L: ReplyLane>(lane: &mut L, out: &mut Vec<Item>) -> Result<(), AllocError>
    ensures gives { OnOk result (out.new.items ≡ out.old.items ++ (L.ReplyLane.holds lane.old).ready) }
    ensures leaves { OnOk result (L.ReplyLane.holds lane.new ≡ both (L.ReplyLane.holds lane.old).state [] (L.ReplyLane.holds lane.old).reply) }
{
    while let Some(x) = lane.take() {
        out.push(x)?;
    }
    Ok(())
}

/// The reply goes behind `replies`.
// The loop of drain_ready over another list: one for both would need a longer contract than the loop, to say that it ends.
fn drain_reply<L: ReplyLane>(lane: &mut L, replies: &mut Vec<Item>) -> Result<(), AllocError>
    ensures gives { OnOk result (replies.new.items ≡ replies.old.items ++ (L.ReplyLane.holds lane.old).reply) }
    ensures leaves { OnOk result (L.ReplyLane.holds lane.new ≡ both (L.ReplyLane.holds lane.old).state (L.ReplyLane.holds lane.old).ready []) }
{
    while let Some(x) = lane.take_reply() {
        replies.push(x)?;
    }
    Ok(())
}

/// Both lists of a lane go out.
fn drain<L: ReplyLane>(
    lane: &mut L,
    out: &mut Vec<Item>,
    replies: &mut Vec<Item>,
) -> Result<(), AllocError>
    ensures gives { OnOk result (out.new.items ≡ out.old.items ++ (L.ReplyLane.holds lane.old).ready) }
    ensures replies { OnOk result (replies.new.items ≡ replies.old.items ++ (L.ReplyLane.holds lane.old).reply) }
    ensures leaves { OnOk result (L.ReplyLane.holds lane.new ≡ both (L.ReplyLane.holds lane.old).state [] []) }
{
    drain_ready(lane, out)?;
    drain_reply(lane, replies)
}

/// What is ready, then what one item makes ready, goes out.
fn pass_one<L: ReplyLane>(
    lane: &mut L,
    x: Item,
    out: &mut Vec<Item>,
    replies: &mut Vec<Item>,
) -> Result<(), AllocError>
    ensures gives { OnOk result (out.new.items ≡ (out.old.items ++ (L.ReplyLane.holds lane.old).ready) ++ (L.ReplyLane.rule.does (L.ReplyLane.holds lane.old).state x).ready) }
    ensures replies { OnOk result (replies.new.items ≡ (replies.old.items ++ (L.ReplyLane.holds lane.old).reply) ++ (L.ReplyLane.rule.does (L.ReplyLane.holds lane.old).state x).reply) }
    ensures leaves { OnOk result (L.ReplyLane.holds lane.new ≡ both (L.ReplyLane.rule.does (L.ReplyLane.holds lane.old).state x).state [] []) }
{
    drain(lane, out, replies)?;
    lane.step(x).unwrap();
    drain(lane, out, replies)
}

// A list is stepped through a lane that has nothing ready.
#[tactic(auto, using(std::proofs::lemmas::List::take_all))]
fn pass_each<L: ReplyLane>(
    lane: &mut L,
    given: &[Item],
    out: &mut Vec<Item>,
    replies: &mut Vec<Item>,
) -> Result<(), AllocError>
    requires ready { (L.ReplyLane.holds lane.old).ready ≡ [] }
    requires reply { (L.ReplyLane.holds lane.old).reply ≡ [] }
    ensures gives { OnOk result (out.new.items ≡ out.old.items ++ stepped (onward L.ReplyLane.rule) (L.ReplyLane.holds lane.old).state given.now) }
    ensures replies { OnOk result (replies.new.items ≡ replies.old.items ++ stepped (back L.ReplyLane.rule) (L.ReplyLane.holds lane.old).state given.now) }
    ensures leaves { OnOk result (L.ReplyLane.holds lane.new ≡ both (after (onward L.ReplyLane.rule) (L.ReplyLane.holds lane.old).state given.now) [] []) }
{
    for x in given {
        pass_one(lane, *x, out, replies)?;
    }
    Ok(())
}

/// A list is stepped through a lane; what goes on goes behind `out`, and what goes back behind `replies`.
pub fn pass<L: ReplyLane>(
    lane: &mut L,
    given: &[Item],
    out: &mut Vec<Item>,
    replies: &mut Vec<Item>,
) -> Result<(), AllocError>
    ensures gives { OnOk result (out.new.items ≡ onto out.old.items (onward L.ReplyLane.rule) (ahead (L.ReplyLane.holds lane.old)) given.now) }
    ensures replies { OnOk result (replies.new.items ≡ onto replies.old.items (back L.ReplyLane.rule) (behind (L.ReplyLane.holds lane.old)) given.now) }
    ensures leaves { OnOk result (L.ReplyLane.holds lane.new ≡ both (after (onward L.ReplyLane.rule) (L.ReplyLane.holds lane.old).state given.now) [] []) }
{
    drain(lane, out, replies)?;
    pass_each(lane, given, out, replies)
}
