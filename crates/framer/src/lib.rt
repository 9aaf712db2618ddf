// The framer: a module that sends each record down as a frame, with a check byte, and reads frames on the way up.
// Promises: each lane does what its rule in specs/Frame.antt says, and a record of up to 1,024 bytes that was sent
// comes back whole.
#![tactic(auto)]

pub mod down;
pub mod up;

ghost use Rattle.std.specs.Prelude.{◌≡◌};
ghost use Rattle.framer.specs.Laws.{RoundTrips};

use down::FrameDown;
use lane::machine::MachineLane;
use level::module::Lanes;
use up::FrameUp;

pub type Framer = Lanes<FrameUp, MachineLane<FrameDown>>;

// A frame begins with START.
const START: u8 = 2;

// It ends with STOP, behind the payload and its check byte.
const STOP: u8 = 3;

// A payload or check byte that is one of the three goes as ESCAPE and the byte exclusive-or FLIP.
const ESCAPE: u8 = 16;

const FLIP: u8 = 64;

// The most bytes of a body: the payload and its check byte.
const LONGEST: usize = 1025;

// The law: what is sent for a record of up to 1,024 bytes, the up lane turns back into that record.
#[tactic(auto, using(crate::proofs::Trip::round_trips))]
fn reads_back()
    ensures round_trip { RoundTrips }
{}

/// What the framer sends down or echoes for a record, its up lane, just started, turns back into that record, if it has up
/// to this many bytes.
pub fn reads_back_up_to() -> usize
    ensures value { result ≡ 1024 }
    ensures round_trip { RoundTrips }
{
    reads_back();
    LONGEST - 1
}
