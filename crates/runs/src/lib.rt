// Whole runs of driver calls.
// Promises: for every driver and every series of its calls, what is said in specs/Runs.antt: nothing that is offered or that arrives
// is lost, added or put out of order, and the records of two bands never mix on the line.
#![tactic(auto)]

ghost use Rattle.std.specs.Prelude.{◌≡◌, true};
ghost use Rattle.runs.specs.Runs.{InOrder};

use driver::Driver;

// The law, for a driver's own line.
#[tactic(auto, using(crate::proofs::Order::in_order))]
fn kept<D: Driver>(_driver: &D)
    ensures law { InOrder D.Driver.line }
{}

/// Whatever calls a driver has from its start on, each band's items go out in the order in which they were offered, what arrives is
/// fetched in order, and a record that has begun is not broken into by another band.
pub fn runs_in_order<D: Driver>(driver: &D) -> bool
    ensures value { result ≡ true }
    ensures law { InOrder D.Driver.line }
{
    kept(driver);
    true
}
