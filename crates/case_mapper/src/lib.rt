// The case mapper: a module for terminals that have capitals only.
// Promises: each lane does what specs/Case.antt says, and what it sends down for a record, its up lane reads back.
#![tactic(auto)]

pub mod down;
pub mod partner;
pub mod up;

ghost use Rattle.std.specs.Prelude.{◌≡◌, true};
ghost use Rattle.case_mapper.specs.Laws.{RoundTrips};

use down::CaseDown;
use lane::machine::MachineLane;
use level::module::Lanes;
use up::CaseUp;

pub type CaseMapper = Lanes<MachineLane<CaseUp>, MachineLane<CaseDown>>;

// The law: a record is read back from what is sent for it.
#[tactic(auto, using(crate::proofs::Trip::round_trips))]
fn reads_back()
    ensures law { RoundTrips }
{}

/// What the mapper sends down or echoes for any record, its up lane, just started, turns back into that record.
pub fn reads_back_what_it_sends() -> bool
    ensures value { result ≡ true }
    ensures law { RoundTrips }
{
    reads_back();
    true
}
