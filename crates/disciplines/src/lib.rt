// The line disciplines that can stand on top of a stream, made of lanes.
// Promises: each does to every item what specs/Raw.antt or specs/Canonical.antt says, and a refused step changes nothing.
#![tactic(auto)]

pub mod canonical;

ghost use Rattle.std.specs.Prelude.{◌≡◌, true};
ghost use Rattle.disciplines.specs.Raw.{RawPasses};

use canonical::{CanonicalDown, CanonicalUp};
use lane::machine::MachineLane;
use lane::pass::Pass;
use lane::reply::Silent;
use level::discipline::TopLanes;

/// Passes every item and echoes nothing.
pub type Raw = TopLanes<Silent<Pass>, Pass>;

/// Edits a line as it is typed, and echoes it.
pub type Canonical = TopLanes<CanonicalUp, MachineLane<CanonicalDown>>;

/// The raw discipline passes every list as it is.
pub fn raw_passes() -> bool
    ensures value { result ≡ true }
    ensures passes { RawPasses }
{
    every_list_passes();
    true
}

/// Only says that every list passes.
fn every_list_passes()
    ensures passes { RawPasses }
{}
