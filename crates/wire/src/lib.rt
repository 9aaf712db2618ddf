// Whole lists over a driver: what a program does that has no queues.
// Promises: everything that waits is fetched in order, items are offered in order as long as there is room, and what can be sent
// goes out in the order that the driver's rules give.
#![tactic(auto)]

ghost use Rattle.std.specs.Prelude.{◌≡◌, min, [], ◌++◌, length, take, OnOk};
ghost use Rattle.driver.specs.Line.{with_waiting};
ghost use Rattle.wire.specs.Order.{free, OffersAll, SendsAll};

use driver::Driver;
use item::{Band, Item};
use std::alloc::AllocError;

/// As many items arrive as there is room for; answers how many.
pub fn arrive_some<D: Driver>(driver: &mut D, items: &[Item]) -> usize
    ensures room { result ≡ min (length items.now) (free (D.Driver.line driver.old)) }
    ensures arrives { D.Driver.line driver.new ≡ with_waiting (D.Driver.line driver.old) ((D.Driver.line driver.old).waiting ++ take result items.now) }
{
    let free = driver.waiting_room().saturating_sub(driver.waiting());
    let taken = items.len().min(free);
    driver.arrive(&items[..taken]).map_or(0, |()| taken)
}

/// Everything that waits goes behind `out`.
pub fn fetch_all<D: Driver>(driver: &mut D, out: &mut Vec<Item>) -> Result<(), AllocError>
    ensures gives { OnOk result (out.new.items ≡ out.old.items ++ (D.Driver.line driver.old).waiting) }
    ensures leaves { OnOk result (D.Driver.line driver.new ≡ with_waiting (D.Driver.line driver.old) []) }
{
    while let Some(x) = driver.fetch() {
        out.push(x)?;
    }
    Ok(())
}

/// Offers items one by one as long as there is room, and answers how many were taken.
pub fn offer_all<D: Driver>(driver: &mut D, to: Band, items: &[Item]) -> usize
    ensures offers { OffersAll (D.Driver.line driver.old) to items.now result (D.Driver.line driver.new) }
{
    for (taken, x) in items.iter().enumerate() {
        if driver.offer(to, *x).is_err() {
            return taken;
        }
    }
    items.len()
}

/// Sends until a send is refused; what goes out goes behind `out`, with its band.
#[tactic(auto, using(crate::proofs::Going::nothing_yet, crate::proofs::Going::one_more))]
pub fn send_all<D: Driver>(driver: &mut D, out: &mut Vec<(Band, Item)>) -> Result<(), AllocError>
    ensures sends { OnOk result (SendsAll (D.Driver.line driver.old) out.old.items out.new.items (D.Driver.line driver.new)) }
{
    // The loop of fetch_all over another call: one for both would need a longer contract than the loop, to say that it ends.
    while let Ok(sent) = driver.send() {
        out.push(sent)?;
    }
    Ok(())
}
