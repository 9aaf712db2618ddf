// A list through a lane. The lanes that reply have these steps for themselves: a lane may also be a lane that replies in a way of its
// own, so no rule makes one kind of the other, and a trait over both would need, for each list that goes out, a record that lends the
// lane.
ghost use Rattle.std.specs.Prelude.{◌≡◌, [], ◌++◌, OnOk};
ghost use Rattle.lane.specs.Rule.{holding};
ghost use Rattle.lane.specs.Lists.{stepped, onto, after};

use item::Item;
use lane::Lane;
use std::alloc::AllocError;

/// What is ready goes behind `out`.
fn drain<L: Lane>(lane: &mut L, out: &mut Vec<Item>) -> Result<(), AllocError>
    ensures gives { OnOk result (out.new.items ≡ out.old.items ++ (L.Lane.holds lane.old).ready) }
    ensures leaves { OnOk result (L.Lane.holds lane.new ≡ holding (L.Lane.holds lane.old).state []) }
{
    while let Some(x) = lane.take() {
        out.push(x)?;
    }
    Ok(())
}

/// What is ready, then what one item makes ready, goes behind `out`.
fn pass_one<L: Lane>(lane: &mut L, x: Item, out: &mut Vec<Item>) -> Result<(), AllocError>
    ensures gives { OnOk result (out.new.items ≡ (out.old.items ++ (L.Lane.holds lane.old).ready) ++ (L.Lane.rule.does (L.Lane.holds lane.old).state x).ready) }
    ensures leaves { OnOk result (L.Lane.holds lane.new ≡ holding (L.Lane.rule.does (L.Lane.holds lane.old).state x).state []) }
{
    drain(lane, out)?;
    lane.step(x).unwrap();
    drain(lane, out)
}

// A list is stepped through a lane that has nothing ready.
#[tactic(auto, using(std::proofs::lemmas::List::take_all))]
fn pass_each<L: Lane>(lane: &mut L, given: &[Item], out: &mut Vec<Item>) -> Result<(), AllocError>
    requires { (L.Lane.holds lane.old).ready ≡ [] }
    ensures gives { OnOk result (out.new.items ≡ out.old.items ++ stepped L.Lane.rule (L.Lane.holds lane.old).state given.now) }
    ensures leaves { OnOk result (L.Lane.holds lane.new ≡ holding (after L.Lane.rule (L.Lane.holds lane.old).state given.now) []) }
{
    for x in given {
        pass_one(lane, *x, out)?;
    }
    Ok(())
}

/// A list is stepped through a lane; what is ready and what becomes ready goes behind `out`.
pub fn pass<L: Lane>(lane: &mut L, given: &[Item], out: &mut Vec<Item>) -> Result<(), AllocError>
    ensures gives { OnOk result (out.new.items ≡ onto out.old.items L.Lane.rule (L.Lane.holds lane.old) given.now) }
    ensures leaves { OnOk result (L.Lane.holds lane.new ≡ holding (after L.Lane.rule (L.Lane.holds lane.old).state given.now) []) }
{
    drain(lane, out)?;
    pass_each(lane, given, out)
}
